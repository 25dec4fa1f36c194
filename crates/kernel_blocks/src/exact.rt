// Sixteen pixels of the exact kernel at maxval 255, a colour row after the other, so that each loop becomes wide instructions.
ghost use Rattle.std.specs.Prelude.{◌≡◌, ℕ, ◌<◌, pos, get_or};
ghost use Rattle.std.specs.Float.{nan};
ghost use Rattle.kernels.specs.Inner.Forms.{plus_chroma};
ghost use Rattle.kernel_blocks.specs.Inner.Floating.{Centred, Chroma, Multiplier, IsMultiplier, Lowered, Luma, Sure};
ghost use Rattle.kernel_blocks.specs.Inner.Blocks.{BlockOf, InLimits, Pixels, Greens, ChromaByte, GreenByte};

use crate::chroma_offsets::{Grid, chroma_offset, green_by_doubt, green_doubt};
use crate::doubts::any_doubt;
use crate::limits::limit_sum;
use crate::stores::Block;
use std::array::from_fn;

// What red and blue multiply chroma by, and what sends their halves up: 3/1024 for blue. Red has no halves, and -0 changes nothing.
#[derive(Clone, Copy)]
struct Multipliers;

impl Multipliers {
    const RED: f32 = 1.402;

    const BLUE: f32 = 1.772;

    const NO_TIE: f32 = -0.0;

    const BLUE_TIE: f32 = 0.002_929_687_5;
}

// Inner: luma less the grid's bits, which an offset carries: their sum is then luma and the offset.
pub fn lower(y: u16) -> i32
    ensures { Lowered result y }
{
    // By `as`: the bits are a constant that an i32 holds, and TryFrom would have an error that can't be.
    i32::from(y) - Grid::BITS as i32
}

// The luma of a block less the grid's bits, once for all three rows.
fn lowered(y: [u16; Block::LEN]) -> [i32; Block::LEN]
    ensures { ((k : ℕ) → k < Block.LEN → Lowered (get_or result k (pos 0)) (get_or y k 0)) }
{
    from_fn(|i| lower(y[i]))
}

// Red or blue of a pixel by its multiplier k; y is the lowered luma, and x the chroma that it takes.
fn chroma_byte(k: f32, tie: f32, y: i32, x: f32) -> u8
    requires { IsMultiplier k tie × Luma y × Chroma x }
    ensures { ChromaByte k tie y x result }
{
    limit_sum(y, chroma_offset(k, tie, x))
}

// The red or the blue row of a block, by its multiplier k; x is the chroma that it takes.
fn chroma_row(k: f32, tie: f32, y: [i32; Block::LEN], x: [f32; Block::LEN]) -> [u8; Block::LEN]
    requires { IsMultiplier k tie × ((i : ℕ) → i < Block.LEN → Luma (get_or y i (pos 0)) × Chroma (get_or x i nan)) }
    ensures { ((i : ℕ) → i < Block.LEN → (m l c : ℕ)
        → Multiplier k tie m
        → Lowered (get_or y i (pos 0)) l
        → Centred (get_or x i nan) c
        → get_or result i 0 ≡ plus_chroma m l c) }
{
    from_fn(|i| chroma_byte(k, tie, y[i], x[i]))
}

// 0 where green is sure at every pixel of a block.
fn doubt(cb: [f32; Block::LEN], cr: [f32; Block::LEN]) -> u32
    requires { ((i : ℕ) → i < Block.LEN → Chroma (get_or cb i nan) × Chroma (get_or cr i nan)) }
    ensures { (result ≡ 0 → (i : ℕ) → i < Block.LEN → Sure (get_or cb i nan) (get_or cr i nan)) }
{
    any_doubt(|i| green_doubt(cb[i], cr[i]))
}

// Green of a pixel, whose lowered luma is y, in the form that a block's doubt decides.
fn green_byte(y: i32, cb: f32, cr: f32, doubt: u32) -> u8
    requires { Luma y × Chroma cb × Chroma cr × (doubt ≡ 0 → Sure cb cr) }
    ensures { GreenByte y cb cr result }
{
    limit_sum(y, green_by_doubt(cb, cr, doubt))
}

// The green row of a block, whose doubt decides the form of all sixteen.
fn green_row(y: [i32; Block::LEN], cb: [f32; Block::LEN], cr: [f32; Block::LEN]) -> [u8; Block::LEN]
    requires { Pixels Block.LEN y cb cr }
    ensures { Greens Block.LEN result y cb cr }
{
    let d = doubt(cb, cr);
    from_fn(|i| green_byte(y[i], cb[i], cr[i], d))
}

// Inner: the red, the green and the blue row of sixteen pixels; chroma in 256ths, less its centre.
pub fn rgb_block(
    y: [u16; Block::LEN],
    cb: [f32; Block::LEN],
    cr: [f32; Block::LEN],
) -> [[u8; Block::LEN]; 3]
    requires { InLimits Block.LEN cb cr }
    ensures { BlockOf Block.LEN result y cb cr }
{
    let low = lowered(y);
    let red = chroma_row(Multipliers::RED, Multipliers::NO_TIE, low, cr);
    let green = green_row(low, cb, cr);
    let blue = chroma_row(Multipliers::BLUE, Multipliers::BLUE_TIE, low, cb);
    [red, green, blue]
}
