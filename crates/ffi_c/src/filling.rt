// Fill to RGB, for C, exported.
ghost use Rattle.std.specs.Prelude.{◌≡◌};
ghost use Rattle.fill.specs.Fill.{FillGiven};
ghost use Rattle.fill.specs.Tests.{fill_call};
ghost use Rattle.ffi.specs.Types.{as_planes, as_layout};
ghost use Rattle.ffi.specs.Calls.{Numbered, no_such_way, as_upsampling, as_kernel};

use ffi::{ChromaLayout, ChromaStrides};

// `fill`: chroma linear (0) or guided (1), kernel exact (0) or fixed (1); 255 for any other switch, siting or range, before all else.
#[unsafe(no_mangle)]
pub extern "C" fn chroma_fill(
    layout: ChromaLayout,
    y: &[u8],
    cb: &[u8],
    cr: &[u8],
    strides: ChromaStrides,
    upsampling: u32,
    kernel: u32,
    size: usize,
    s: &mut [f32],
    out: &mut [u8],
) -> u32
    ensures { Numbered (no_such_way layout upsampling kernel)
        ((s.new ≡ s.old) × (out.new ≡ out.old))
        (λ a. FillGiven
        (fill_call (as_layout layout) (as_planes y.now cb.now cr.now strides)
        (as_upsampling upsampling) (as_kernel kernel) size s.old out.old)
        a s.new out.new)
        result }
{
    ffi::chroma_fill(layout, y, cb, cr, strides, upsampling, kernel, size, s, out)
}
