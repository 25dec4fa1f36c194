// The kinds of blocks of sixteen pixels: what makes a block of a lent row, and the colour that its pixels have.
ghost use Rattle.std.specs.Prelude.{◌≡◌, ℕ, ◌+◌, ◌≤◌, ◌<◌, Float, get_or};
ghost use Rattle.image.specs.Scratch.{cell_at};
ghost use Rattle.kernels.specs.Kernels.{Colour};
ghost use Rattle.kernel_blocks.specs.Inner.Stores.{block_pixel};
ghost use Rattle.colour_rows.specs.Colours.{colour_by, studio_by};
ghost use Rattle.colour_rows.specs.Inner.Colours.{lent_pixel};
ghost use Rattle.colour_rows.specs.Inner.Blocks.{PixelsFrom};
ghost use Rattle.kernels.specs.declared.kernel.YcbcrKernel.TheVariants.{Exact, FixedPoint16};

use crate::lent::LentRow;
use crate::samples::{chroma_block, luma_block, whole_chroma_block};
use kernel_blocks::Block;

// Inner: a kind of block.
pub trait Kind {
    // The colour of a pixel, from its luma and its chroma.
    ghost colour: { ℕ → Float → Float → Colour };

    // Sixteen pixels, of luma y and of the chroma of the columns from x on.
    fn pixels(lent: LentRow<'_>, y: [u16; Block::LEN], x: usize) -> [[u8; Block::LEN]; 3]
        requires { x + Block.LEN ≤ lent.layout.w }
        ensures { ((k : ℕ) → k < Block.LEN → block_pixel result k ≡ colour
            (get_or y k 0) (cell_at lent.entry.s.now 0 (x + k)) (cell_at lent.entry.s.now lent.entry.layout.w (x + k))) };
}

// Inner: the exact kernel at maxval 255.
pub struct ExactKind;

impl Kind for ExactKind {
    ghost colour = { colour_by Exact 255 };

    fn pixels(lent: LentRow<'_>, y: [u16; Block::LEN], x: usize) -> [[u8; Block::LEN]; 3] {
        let cb = chroma_block(lent.s, 0, x);
        let cr = chroma_block(lent.s, lent.layout.w, x);
        kernel_blocks::rgb_block(y, cb, cr)
    }
}

// Inner: the fixed kernel. It doesn't look at maxval.
pub struct FixedKind;

impl Kind for FixedKind {
    ghost colour = { colour_by FixedPoint16 255 };

    fn pixels(lent: LentRow<'_>, y: [u16; Block::LEN], x: usize) -> [[u8; Block::LEN]; 3] {
        let cb = whole_chroma_block(lent.s, 0, x);
        let cr = whole_chroma_block(lent.s, lent.layout.w, x);
        kernel_blocks::fixed_block(y, cb, cr)
    }
}

// Inner: the exact kernel in studio range.
pub struct StudioKind;

impl Kind for StudioKind {
    ghost colour = { studio_by };

    fn pixels(lent: LentRow<'_>, y: [u16; Block::LEN], x: usize) -> [[u8; Block::LEN]; 3] {
        let cb = chroma_block(lent.s, 0, x);
        let cr = chroma_block(lent.s, lent.layout.w, x);
        kernel_blocks::studio_block(y, cb, cr)
    }
}

// Inner: the sixteen pixels of a row from column x on.
pub fn pixels_at<K: Kind>(lent: LentRow<'_>, x: usize) -> [[u8; Block::LEN]; 3]
    requires { x + Block.LEN ≤ lent.layout.w }
    ensures { PixelsFrom Block.LEN result x (lent_pixel K.colour lent.entry) }
{
    K::pixels(lent, luma_block(lent, x), x)
}
