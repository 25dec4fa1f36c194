// Sixteen pixels of the fixed kernel, a colour row after the other, their offsets read from the tables of the crate kernels: document 01's
// formulas as they stand, over numbers with a sign.
//
// The entries of a row are gathered before they are added, so that what follows compiles to wide instructions.
ghost use Rattle.std.specs.Prelude.{◌≡◌, ℕ, ◌<◌, length, get_or, pos, ◌+ℤ◌};
ghost use Rattle.laws.specs.Differences.{floor_div, limit};
ghost use Rattle.kernels.specs.Kernels.{fixed255};
ghost use Rattle.kernels.specs.Inner.Forms.{plus_fixed};
ghost use Rattle.kernel_blocks.specs.Inner.Blocks.{Small};
ghost use Rattle.kernel_blocks.specs.Inner.Stores.{block_pixel};

use crate::limits::limit_byte;
use crate::stores::Block;
use std::array::from_fn;

// Luma and an offset, limited to 0..=255.
fn plus(y: u16, offset: i32) -> u8
    requires { Small offset }
    ensures { result ≡ limit 255 (pos y +ℤ offset) }
{
    limit_byte(i32::from(y) + offset)
}

// Green's offset from its two parts, which are summed before the shift.
fn shifted(cb_part: i32, cr_part: i32) -> i32
    requires { Small cb_part × Small cr_part }
    ensures { (result ≡ floor_div (cb_part +ℤ cr_part) 65536) × Small result }
{
    (cb_part + cr_part) >> 16
}

// The red or the blue row of a block, from the offsets of its pixels.
fn offset_row(y: [u16; Block::LEN], offset: [i32; Block::LEN]) -> [u8; Block::LEN]
    requires { ((k : ℕ) → k < Block.LEN → Small (get_or offset k (pos 0))) }
    ensures { ((k : ℕ) → k < Block.LEN → get_or result k 0 ≡ limit 255 (pos (get_or y k 0) +ℤ get_or offset k (pos 0))) }
{
    from_fn(|i| plus(y[i], offset[i]))
}

// The green row of a block, from the parts of its pixels' offsets.
fn green_row(
    y: [u16; Block::LEN],
    cb_part: [i32; Block::LEN],
    cr_part: [i32; Block::LEN],
) -> [u8; Block::LEN]
    requires { ((k : ℕ) → k < Block.LEN → Small (get_or cb_part k (pos 0)) × Small (get_or cr_part k (pos 0))) }
    ensures { ((k : ℕ) → k < Block.LEN → get_or result k 0 ≡ limit 255
        (pos (get_or y k 0) +ℤ floor_div (get_or cb_part k (pos 0) +ℤ get_or cr_part k (pos 0)) 65536)) }
{
    from_fn(|i| plus(y[i], shifted(cb_part[i], cr_part[i])))
}

// The red row of a block.
fn fixed_red(y: [u16; Block::LEN], cr: [u8; Block::LEN]) -> [u8; Block::LEN]
    ensures { ((k : ℕ) → k < Block.LEN → get_or result k 0 ≡ plus_fixed 91881 (get_or y k 0) (get_or cr k 0)) }
{
    offset_row(y, from_fn(|i| kernels::red_entry(cr[i])))
}

// The green row of a block.
fn fixed_green(y: [u16; Block::LEN], cb: [u8; Block::LEN], cr: [u8; Block::LEN]) -> [u8; Block::LEN]
    ensures { ((k : ℕ) → k < Block.LEN → get_or result k 0 ≡ (fixed255 (get_or y k 0) (get_or cb k 0) (get_or cr k 0)).green) }
{
    green_row(
        y,
        from_fn(|i| kernels::green_cb_entry(cb[i])),
        from_fn(|i| kernels::green_cr_entry(cr[i])),
    )
}

// The blue row of a block.
fn fixed_blue(y: [u16; Block::LEN], cb: [u8; Block::LEN]) -> [u8; Block::LEN]
    ensures { ((k : ℕ) → k < Block.LEN → get_or result k 0 ≡ plus_fixed 116130 (get_or y k 0) (get_or cb k 0)) }
{
    offset_row(y, from_fn(|i| kernels::blue_entry(cb[i])))
}

// Inner: the red, the green and the blue row of sixteen pixels by the fixed kernel, on whole chroma.
pub fn fixed_block(
    y: [u16; Block::LEN],
    cb: [u8; Block::LEN],
    cr: [u8; Block::LEN],
) -> [[u8; Block::LEN]; 3]
    ensures { ((k : ℕ) → k < Block.LEN → block_pixel result k ≡ fixed255 (get_or y k 0) (get_or cb k 0) (get_or cr k 0)) }
{
    [fixed_red(y, cr), fixed_green(y, cb, cr), fixed_blue(y, cb)]
}
