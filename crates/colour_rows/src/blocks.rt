// A row by blocks of sixteen pixels, whatever kind of block. The last block ends with the row: it overlaps the block before it and stores
// again what that stored.
//
// The kind is a type, so that each has loops of its own: were it chosen inside them, the exact kernel would pay for the registers that
// reading tables takes (a tenth of a linear fill).
ghost use Rattle.std.specs.Prelude.{◌≡◌, ◌+◌, ◌*◌, ◌≤◌, length};
ghost use Rattle.colour_rows.specs.Inner.Colours.{lent_row};

use crate::kinds::{Kind, pixels_at};
use crate::lent::LentRow;
use kernel_blocks::Block;

// A row with three bytes a pixel. The size is a constant in the loop, so that the stores of a block are plain ones.
fn by_threes<K: Kind>(lent: LentRow<'_>, out: &mut [u8], at: usize)
    requires { (Block.LEN ≤ lent.layout.w) × (at + lent.layout.w * 3 ≤ length out.old) }
    ensures { out.new ≡ lent_row K.colour lent.entry at 3 out.old }
{
    let w = lent.layout.w;
    for i in 0..w.div_ceil(Block::LEN) {
        let x = (i * Block::LEN).min(w - Block::LEN);
        let rows = pixels_at::<K>(lent, x);
        kernel_blocks::put_block(out, at + x * 3, 3, rows);
    }
}

// A row with four bytes a pixel, stored as words of 32 bits. `low` has the bits of the three colour bytes, 16,777,215 = 2^24 - 1; the fourth
// byte keeps what it held.
fn by_words<K: Kind>(lent: LentRow<'_>, out: &mut [u8], at: usize, low: u32)
    requires { (Block.LEN ≤ lent.layout.w) × (at + lent.layout.w * 4 ≤ length out.old) × (low ≡ 16777215) }
    ensures { out.new ≡ lent_row K.colour lent.entry at 4 out.old }
{
    let w = lent.layout.w;
    for i in 0..w.div_ceil(Block::LEN) {
        let x = (i * Block::LEN).min(w - Block::LEN);
        let rows = pixels_at::<K>(lent, x);
        kernel_blocks::put_words(out, at + x * 4, low, rows);
    }
}

// Inner: a row by blocks of one kind, the pixel size chosen outside the loop. The mask `low` of four bytes a pixel is
// 4 * 2^22 - 1 = 2^24 - 1. It is computed from the size, since a mask that the compiler knows would make it read the fourth bytes one by one.
pub fn row_by_blocks<K: Kind>(lent: LentRow<'_>, size: usize, out: &mut [u8], at: usize)
    requires { (Block.LEN ≤ lent.layout.w) × (3 ≤ size) × (size ≤ 4) × (at + lent.layout.w * size ≤ length out.old) }
    ensures { out.new ≡ lent_row K.colour lent.entry at size out.old }
{
    if size == 3 {
        by_threes::<K>(lent, out, at);
        return;
    }
    // By `as`: no From takes a usize to a u32.
    let low = size as u32 * 4_194_304 - 1;
    by_words::<K>(lent, out, at, low);
}
