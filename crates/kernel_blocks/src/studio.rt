// A byte of the block in studio range. What a channel adds to luma is a float in 256ths of a level: luma's own part, 36/219 of it less
// 4080/219, since 255 * (y - 16) / 219 is y + (36 y - 4080) / 219, and chroma's. It is near enough to be exact but close to a half, where the
// plain form serves. Chroma is a float here, in 256ths less its centre.
ghost use Rattle.std.specs.Prelude.{◌≡◌, ℕ, ◌≤◌, min};
ghost use Rattle.kernels.specs.Inner.Forms.{studio_chroma};
ghost use Rattle.kernel_blocks.specs.Inner.Floating.{Chroma};
ghost use Rattle.kernel_blocks.specs.Inner.Studio.{luma_part, less_shift, Part, Parted, Tone, Toned, tone_bits, fall_bits, ToneSure, FallSure, ToneByte, FallByte};

use crate::chroma_offsets::{Grid, in_256ths};
use crate::exact::lower;
use crate::limits::limit_sum;
use kernels::{studio_chroma, studio_green};

// Inner: the numbers of studio range in 256ths, each the float nearest to its fraction but for the two shifts.
#[derive(Clone, Copy)]
pub struct Studio;

impl Studio {
    // The luma from which every colour is 255, whatever its chroma.
    pub const TOP: u16 = 511;

    // 256 * 36 / 219, what luma adds to itself.
    pub const LUMA: f32 = 42.082_191_5;

    // 256 * 4080 / 219 is 4769.315..; this is 4769 + 71/256, less by more than the roundings amount to.
    pub const LESS: f32 = 4_769.277_343_75;

    // 4769 + 91/256, which is more by so much.
    pub const MORE: f32 = 4_769.355_468_75;

    // 1.402 * 255 / 224, what red multiplies chroma by.
    pub const RED: f32 = 1.596_026_78;

    // 1.772 * 255 / 224, what blue multiplies it by.
    pub const BLUE: f32 = 2.017_232_18;
}

// Inner: luma limited to 511, so that its part is a small number.
pub fn limit_luma(y: u16) -> u16
    ensures { result ≡ min y 511 }
{
    y.min(Studio::TOP)
}

// Inner: what luma adds to itself, by one of the two shifts.
pub fn luma_part(l: u16, shift: f32) -> f32
    requires { l ≤ 511 }
    ensures { result ≡ luma_part shift l }
{
    Studio::LUMA * fround::whole(u32::from(l)) - shift
}

// What red or blue adds to luma, rounded to a whole level and plus the grid's bits. `part` is luma's, and k * x is chroma's.
fn tone_near(k: f32, part: f32, x: f32) -> u32
    requires { Toned k × Parted part × Chroma x }
    ensures { (result ≡ tone_bits k part x) × (result ≤ 2147483647) }
{
    f32::to_bits(Grid::MIDDLE + (part + k * x))
}

// Inner: 0 where red or blue is sure: where luma's part by either shift gives the same bits.
pub fn tone_doubt(k: f32, less: f32, more: f32, x: f32) -> u32
    requires { Toned k × Parted less × Parted more × Chroma x }
    ensures { result ≡ 0 → tone_bits k less x ≡ tone_bits k more x }
{
    tone_near(k, less, x) ^ tone_near(k, more, x)
}

// Inner: red or blue of a pixel of luma l, by the float where there is no doubt and else by the plain form. The doubt is that of a row of
// sixteen, so that one form serves all of it. m is the multiplier k's thousandths in full range.
pub fn tone_by(k: f32, m: u32, l: u16, less: f32, x: f32, doubt: u32) -> u8
    requires { Tone k m × Part less_shift less l × Chroma x × (doubt ≡ 0 → ToneSure k x l) }
    ensures { ToneByte m l x result }
{
    if doubt == 0 {
        return limit_sum(lower(l), tone_near(k, less, x));
    }
    studio_chroma(u64::from(m), l, u64::from(in_256ths(x)))
}

// What green adds to luma, rounded to a whole level and plus the grid's bits.
//
// The multipliers are the floats nearest to 202,008 / 587,000 and 419,198 / 587,000 times 255 / 224.
fn fall_near(part: f32, cb: f32, cr: f32) -> u32
    requires { Parted part × Chroma cb × Chroma cr }
    ensures { (result ≡ fall_bits part cb cr) × (result ≤ 2147483647) }
{
    f32::to_bits(Grid::MIDDLE + (part - (0.391_762_286 * cb + 0.812_967_658 * cr)))
}

// Inner: 0 where green is sure, by the same rule.
pub fn fall_doubt(less: f32, more: f32, cb: f32, cr: f32) -> u32
    requires { Parted less × Parted more × Chroma cb × Chroma cr }
    ensures { result ≡ 0 → fall_bits less cb cr ≡ fall_bits more cb cr }
{
    fall_near(less, cb, cr) ^ fall_near(more, cb, cr)
}

// Inner: green of a pixel, by the float where its row is not in doubt.
pub fn fall_by(l: u16, less: f32, cb: f32, cr: f32, doubt: u32) -> u8
    requires { Part less_shift less l × Chroma cb × Chroma cr × (doubt ≡ 0 → FallSure cb cr l) }
    ensures { FallByte l cb cr result }
{
    if doubt == 0 {
        return limit_sum(lower(l), fall_near(less, cb, cr));
    }
    studio_green(l, u64::from(in_256ths(cb)), u64::from(in_256ths(cr)))
}
