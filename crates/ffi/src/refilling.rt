// Refill, for C.
ghost use Rattle.std.specs.Prelude.{◌≡◌};
ghost use Rattle.fill.specs.Refill.{refill_call, RefillGiven};
ghost use Rattle.ffi.specs.Types.{as_planes, as_layout};
ghost use Rattle.ffi.specs.Patches.{as_rectangle};
ghost use Rattle.ffi.specs.Calls.{Numbered, no_such_way, as_kernel};

use crate::filling::{no_such_way, to_kernel};
use crate::patches::{ChromaRectangle, to_rectangle};
use crate::types::{ChromaLayout, ChromaStrides, number_of, to_layout, to_planes};

// `refill`: kernel exact (0) or fixed (1); 255 for any other switch or siting, before all else. Fourteen parameters:
// those of `refill`, with the planes as slices.
pub fn chroma_refill(
    layout: ChromaLayout,
    old_y: &[u8],
    old_cb: &[u8],
    old_cr: &[u8],
    old_strides: ChromaStrides,
    y: &[u8],
    cb: &[u8],
    cr: &[u8],
    strides: ChromaStrides,
    cells: ChromaRectangle,
    kernel: u32,
    size: usize,
    s: &mut [f32],
    out: &mut [u8],
) -> u32
    ensures { Numbered (no_such_way layout 1 kernel)
        ((s.new ≡ s.old) × (out.new ≡ out.old))
        (λ a. RefillGiven
        (refill_call (as_layout layout)
        (as_planes old_y.now old_cb.now old_cr.now old_strides)
        (as_planes y.now cb.now cr.now strides)
        (as_rectangle cells) (as_kernel kernel) size s.old out.old)
        a s.new out.new)
        result }
{
    if no_such_way(layout, 1, kernel) {
        return 255;
    }
    number_of(fill::refill(
        to_layout(layout),
        to_planes(old_y, old_cb, old_cr, old_strides),
        to_planes(y, cb, cr, strides),
        to_rectangle(cells),
        to_kernel(kernel),
        size,
        s,
        out,
    ))
}
