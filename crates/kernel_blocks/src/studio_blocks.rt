// Sixteen pixels of the exact kernel in studio range, a colour row at a time.
ghost use Rattle.std.specs.Prelude.{◌≡◌, ℕ, ◌<◌, ◌≤◌, min, get_or};
ghost use Rattle.std.specs.Float.{nan};
ghost use Rattle.kernels.specs.T871.{studio255};
ghost use Rattle.kernels.specs.Inner.Forms.{studio_chroma};
ghost use Rattle.kernel_blocks.specs.Inner.Floating.{Centred, Chroma};
ghost use Rattle.kernel_blocks.specs.Inner.Blocks.{InLimits};
ghost use Rattle.kernel_blocks.specs.Inner.Studio.{luma_part, Parted, Parts, Tone, Toned, tone_bits, fall_bits, StudioBlock};

use crate::doubts::any_doubt;
use crate::stores::Block;
use crate::studio::{Studio, fall_by, fall_doubt, limit_luma, luma_part, tone_by, tone_doubt};
use kernels::Multiplier;
use std::array::from_fn;

// The luma of a block, limited to 511.
fn limited(y: [u16; Block::LEN]) -> [u16; Block::LEN]
    ensures { ((k : ℕ) → k < Block.LEN → get_or result k 0 ≡ min (get_or y k 0) 511) }
{
    from_fn(|i| limit_luma(y[i]))
}

// What each luma of a block adds to itself by one of the two shifts. All three rows use it.
fn parts(l: [u16; Block::LEN], shift: f32) -> [f32; Block::LEN]
    requires { ((k : ℕ) → k < Block.LEN → get_or l k 0 ≤ 511) }
    ensures { ((k : ℕ) → k < Block.LEN → get_or result k nan ≡ luma_part shift (get_or l k 0)) }
{
    from_fn(|i| luma_part(l[i], shift))
}

// 0 where red or blue is sure at every pixel of a block.
fn tone_doubts(
    k: f32,
    less: [f32; Block::LEN],
    more: [f32; Block::LEN],
    x: [f32; Block::LEN],
) -> u32
    requires { Toned k × ((i : ℕ) → i < Block.LEN → Parted (get_or less i nan) × Parted (get_or more i nan) × Chroma (get_or x i nan)) }
    ensures { (result ≡ 0 → (i : ℕ) → i < Block.LEN → tone_bits k (get_or less i nan) (get_or x i nan) ≡ tone_bits k (get_or more i nan) (get_or x i nan)) }
{
    any_doubt(|i| tone_doubt(k, less[i], more[i], x[i]))
}

// The red or the blue row of a block, whose doubt decides the form of all sixteen.
fn tone_row(
    k: f32,
    m: u32,
    l: [u16; Block::LEN],
    less: [f32; Block::LEN],
    more: [f32; Block::LEN],
    x: [f32; Block::LEN],
) -> [u8; Block::LEN]
    requires { Tone k m × ((i : ℕ) → i < Block.LEN → Parts (get_or l i 0) (get_or less i nan) (get_or more i nan) × Chroma (get_or x i nan)) }
    ensures { ((i : ℕ) → i < Block.LEN → (c : ℕ) → Centred (get_or x i nan) c → get_or result i 0 ≡ studio_chroma m (get_or l i 0) c) }
{
    let d = tone_doubts(k, less, more, x);
    from_fn(|i| tone_by(k, m, l[i], less[i], x[i], d))
}

// 0 where green is sure at every pixel of a block.
fn fall_doubts(
    less: [f32; Block::LEN],
    more: [f32; Block::LEN],
    cb: [f32; Block::LEN],
    cr: [f32; Block::LEN],
) -> u32
    requires { ((i : ℕ) → i < Block.LEN → Parted (get_or less i nan) × Parted (get_or more i nan) × Chroma (get_or cb i nan) × Chroma (get_or cr i nan)) }
    ensures { (result ≡ 0 → (i : ℕ) → i < Block.LEN → fall_bits (get_or less i nan) (get_or cb i nan) (get_or cr i nan) ≡ fall_bits (get_or more i nan) (get_or cb i nan) (get_or cr i nan)) }
{
    any_doubt(|i| fall_doubt(less[i], more[i], cb[i], cr[i]))
}

// The green row of a block, whose doubt decides the form of all sixteen.
fn fall_row(
    l: [u16; Block::LEN],
    less: [f32; Block::LEN],
    more: [f32; Block::LEN],
    cb: [f32; Block::LEN],
    cr: [f32; Block::LEN],
) -> [u8; Block::LEN]
    requires { ((i : ℕ) → i < Block.LEN → Parts (get_or l i 0) (get_or less i nan) (get_or more i nan) × Chroma (get_or cb i nan) × Chroma (get_or cr i nan)) }
    ensures { ((i : ℕ) → i < Block.LEN → (b r : ℕ) → Centred (get_or cb i nan) b → Centred (get_or cr i nan) r → get_or result i 0 ≡ (studio255 (get_or l i 0) b r).green) }
{
    let d = fall_doubts(less, more, cb, cr);
    from_fn(|i| fall_by(l[i], less[i], cb[i], cr[i], d))
}

// Inner: the red, the green and the blue row of sixteen pixels in studio range; chroma in 256ths, less its centre.
pub fn studio_block(
    y: [u16; Block::LEN],
    cb: [f32; Block::LEN],
    cr: [f32; Block::LEN],
) -> [[u8; Block::LEN]; 3]
    requires { InLimits Block.LEN cb cr }
    ensures { StudioBlock Block.LEN result y cb cr }
{
    let l = limited(y);
    let less = parts(l, Studio::LESS);
    let more = parts(l, Studio::MORE);
    let red = tone_row(Studio::RED, Multiplier::RED, l, less, more, cr);
    let green = fall_row(l, less, more, cb, cr);
    let blue = tone_row(Studio::BLUE, Multiplier::BLUE, l, less, more, cb);
    [red, green, blue]
}
