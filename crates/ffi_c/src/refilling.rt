// Refill, for C, exported.
ghost use Rattle.std.specs.Prelude.{◌≡◌};
ghost use Rattle.fill.specs.Refill.{refill_call, RefillGiven};
ghost use Rattle.ffi.specs.Types.{as_planes, as_layout};
ghost use Rattle.ffi.specs.Patches.{as_rectangle};
ghost use Rattle.ffi.specs.Calls.{Numbered, no_such_way, as_kernel};

use ffi::{ChromaLayout, ChromaRectangle, ChromaStrides};

// `refill`: kernel exact (0) or fixed (1); 255 for any other switch or siting, before all else. Fourteen parameters:
// those of `refill`, with the planes as slices.
#[unsafe(no_mangle)]
pub extern "C" fn chroma_refill(
    layout: ChromaLayout,
    old_y: &[u8],
    old_cb: &[u8],
    old_cr: &[u8],
    old_strides: ChromaStrides,
    y: &[u8],
    cb: &[u8],
    cr: &[u8],
    strides: ChromaStrides,
    cells: ChromaRectangle,
    kernel: u32,
    size: usize,
    s: &mut [f32],
    out: &mut [u8],
) -> u32
    ensures { Numbered (no_such_way layout 1 kernel)
        ((s.new ≡ s.old) × (out.new ≡ out.old))
        (λ a. RefillGiven
        (refill_call (as_layout layout)
        (as_planes old_y.now old_cb.now old_cr.now old_strides)
        (as_planes y.now cb.now cr.now strides)
        (as_rectangle cells) (as_kernel kernel) size s.old out.old)
        a s.new out.new)
        result }
{
    ffi::chroma_refill(
        layout,
        old_y,
        old_cb,
        old_cr,
        old_strides,
        y,
        cb,
        cr,
        strides,
        cells,
        kernel,
        size,
        s,
        out,
    )
}
