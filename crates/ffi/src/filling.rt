// Fill to RGB, for C.
ghost use Rattle.std.specs.Prelude.{◌≡◌};
ghost use Rattle.fill.specs.Fill.{FillGiven};
ghost use Rattle.fill.specs.Tests.{fill_call};
ghost use Rattle.ffi.specs.Types.{as_planes, as_layout};
ghost use Rattle.ffi.specs.Calls.{Numbered, no_such_way, as_upsampling, as_kernel};

use crate::types::{ChromaLayout, ChromaStrides, number_of, strange_layout, to_layout, to_planes};
use fill::ChromaUpsampling;
use kernels::YcbcrKernel;

// The chroma that C's switch stands for: 1 is guided. Another number than 0 and 1 was answered before.
#[tactic(auto, unfolding(crate::specs::Calls::as_upsampling))]
fn to_upsampling(n: u32) -> ChromaUpsampling
    ensures { result ≡ as_upsampling n }
{
    if n == 1 {
        return ChromaUpsampling::LumaGuided;
    }
    ChromaUpsampling::Linear
}

// Inner: the kernel that C's switch stands for: 1 is fixed. Another number than 0 and 1 was answered before.
#[tactic(auto, unfolding(crate::specs::Calls::as_kernel))]
pub fn to_kernel(n: u32) -> YcbcrKernel
    ensures { result ≡ as_kernel n }
{
    if n == 1 {
        return YcbcrKernel::FixedPoint16;
    }
    YcbcrKernel::Exact
}

// Inner: whether C's switches, or the layout's sitings or range, stand for no way to fill.
#[tactic(auto, unfolding(crate::specs::Calls::no_such_way))]
pub fn no_such_way(layout: ChromaLayout, upsampling: u32, kernel: u32) -> bool
    ensures { result ≡ no_such_way layout upsampling kernel }
{
    1 < upsampling || 1 < kernel || strange_layout(layout)
}

// `fill`: chroma linear (0) or guided (1), kernel exact (0) or fixed (1); 255 for any other switch, siting or range, before all else.
pub fn chroma_fill(
    layout: ChromaLayout,
    y: &[u8],
    cb: &[u8],
    cr: &[u8],
    strides: ChromaStrides,
    upsampling: u32,
    kernel: u32,
    size: usize,
    s: &mut [f32],
    out: &mut [u8],
) -> u32
    ensures { Numbered (no_such_way layout upsampling kernel)
        ((s.new ≡ s.old) × (out.new ≡ out.old))
        (λ a. FillGiven
        (fill_call (as_layout layout) (as_planes y.now cb.now cr.now strides)
        (as_upsampling upsampling) (as_kernel kernel) size s.old out.old)
        a s.new out.new)
        result }
{
    if no_such_way(layout, upsampling, kernel) {
        return 255;
    }
    number_of(fill::fill(
        to_layout(layout),
        to_planes(y, cb, cr, strides),
        to_upsampling(upsampling),
        to_kernel(kernel),
        size,
        s,
        out,
    ))
}
