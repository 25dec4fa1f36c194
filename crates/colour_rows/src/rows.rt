// One row of colour, from luma's plane and the two finished rows of chroma that lie in scratch, by blocks or pixel by pixel.
ghost use Rattle.std.specs.Prelude.{◌≡◌, true, ◌+◌, ◌*◌, ◌≤◌, length};
ghost use Rattle.image.specs.Samples.{seen};
ghost use Rattle.colour_rows.specs.Colours.{colour_in};
ghost use Rattle.colour_rows.specs.Inner.Colours.{lent_row, ranged_row};
ghost use Rattle.colour_rows.specs.Inner.Blocks.{Blocked};

use crate::blocks::row_by_blocks;
use crate::kinds::{ExactKind, FixedKind, StudioKind};
use crate::lent::LentRow;
use crate::pixels::plain_row;
use image::{Layout, Range};
use kernel_blocks::Block;
use kernels::YcbcrKernel;

// Whether a row goes by blocks: it is as wide as one, and its kernel has a block. The exact kernel has one at maxval 255 only, which is
// studio range's too.
fn by_blocks(layout: Layout, kernel: YcbcrKernel) -> bool
    ensures { (result ≡ true → Blocked Block.LEN kernel layout) }
{
    if layout.w < Block::LEN {
        return false;
    }
    match kernel {
        YcbcrKernel::Exact => layout.maxval == 255,
        YcbcrKernel::FixedPoint16 => true,
    }
}

// A row by blocks. Range and kernel are chosen outside the loops.
fn block_row(kernel: YcbcrKernel, lent: LentRow<'_>, size: usize, out: &mut [u8], at: usize)
    requires { Blocked Block.LEN kernel lent.layout × (3 ≤ size) × (size ≤ 4) × (at + lent.layout.w * size ≤ length out.old) }
    ensures { out.new ≡ lent_row
        (colour_in lent.entry.layout.range kernel lent.entry.layout.maxval) lent.entry at size out.old }
{
    match (lent.layout.range, kernel) {
        (Range::Studio, _) => row_by_blocks::<StudioKind>(lent, size, out, at),
        (Range::Full, YcbcrKernel::Exact) => row_by_blocks::<ExactKind>(lent, size, out, at),
        (Range::Full, YcbcrKernel::FixedPoint16) => row_by_blocks::<FixedKind>(lent, size, out, at),
    }
}

// Inner: the lent row as w pixels of `size` bytes, to out from `at` on, in the layout's range. By blocks or pixel by pixel is chosen here,
// outside the loops.
pub fn colour_row(kernel: YcbcrKernel, lent: LentRow<'_>, size: usize, out: &mut [u8], at: usize)
    requires { (3 ≤ size) × (size ≤ 4) × (at + lent.layout.w * size ≤ length out.old) }
    ensures { out.new ≡ ranged_row
        kernel lent.entry.layout (seen lent.entry.plane) lent.entry.row lent.entry.s.now at size out.old }
{
    if by_blocks(lent.layout, kernel) {
        block_row(kernel, lent, size, out, at);
        return;
    }
    plain_row(kernel, lent, size, out, at);
}
