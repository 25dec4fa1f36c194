// The single-pixel calls of the original's src/convert.rs, which look at every argument first.
ghost use Rattle.std.specs.Prelude.{◌≡◌, ◌≤◌};
ghost use Rattle.laws.specs.Refusals.{first};
ghost use Rattle.kernels.specs.Inner.Forms.{colour_of};
ghost use Rattle.kernels.specs.Pixels.{exact_colour, exact_pixel, fixed_pixel, exact_tests, fixed_tests};

use crate::bytes::Rgb;
use crate::exact::{ycbcr_frac_to_rgb8_8bit, ycbcr_frac_to_rgb8_at};
use crate::fixed::ycbcr_to_rgb8_fixed;
use crate::studio::ycbcr_frac_to_rgb8_studio;
use image::{Range, bad_range};
use laws::{Refusal, outside};

// The first refusal of `ycbcr_frac_to_rgb8` that applies. 16,776,960 is 65,535 * 256, the greatest sample in 256ths. By
// `as`: no From takes a u32 to a usize.
#[tactic(auto, unfolding(crate::specs::Pixels::exact_tests, crate::specs::Pixels::bad_exact))]
fn exact_answer(y: u32, cb256: u32, cr256: u32, maxval: u32, range: Range) -> Result<(), Refusal>
    ensures { result ≡ first (exact_tests range maxval y cb256 cr256) }
{
    let past = 65_535 < y || 16_776_960 < cb256 || 16_776_960 < cr256;
    laws::first([
        (bad_range(range, false, maxval), Refusal::BadRange),
        (
            past || outside(1, 65_535, maxval as usize),
            Refusal::BadPixel,
        ),
    ])
}

// The lowest refusal of `ycbcr_to_rgb8_fixed16` that applies; its chroma is whole.
#[tactic(auto, unfolding(crate::specs::Pixels::fixed_tests))]
fn fixed_answer(y: u32, cb: u32, cr: u32) -> Result<(), Refusal>
    ensures { result ≡ first (fixed_tests y cb cr) }
{
    laws::first([(65_535 < y || 65_535 < cb || 65_535 < cr, Refusal::BadPixel)])
}

// The exact kernel's colour in full range.
#[tactic(auto, unfolding(crate::specs::Pixels::exact_colour))]
fn full_colour(y: u16, cb256: u32, cr256: u32, maxval: u32) -> Rgb
    requires { (cb256 ≤ 16776960) × (cr256 ≤ 16776960) × (1 ≤ maxval) × (maxval ≤ 65535) }
    ensures { colour_of result ≡ exact_colour maxval y cb256 cr256 }
{
    if maxval == 255 {
        return ycbcr_frac_to_rgb8_8bit(y, cb256, cr256);
    }
    ycbcr_frac_to_rgb8_at(y, cb256, cr256, maxval)
}

// The colour of a pixel by the exact kernel: luma in whole samples, chroma in 256ths of one, the greatest sample maxval; or luma 16 to 235
// and chroma 16 to 240, in studio range. Refusals: 18, 13.
#[tactic(auto, using(crate::proofs::Colours::exact_passed), unfolding(crate::specs::Pixels::exact_pixel, crate::specs::Pixels::ranged_colour))]
pub fn ycbcr_frac_to_rgb8(
    y: u32,
    cb256: u32,
    cr256: u32,
    maxval: u32,
    range: Range,
) -> Result<Rgb, Refusal>
    ensures { result ≡ exact_pixel range maxval y cb256 cr256 }
{
    exact_answer(y, cb256, cr256, maxval, range)?;
    // By `as`: a greater number was refused, and TryFrom would have an error that can't be.
    let luma = y as u16;
    Ok(match range {
        Range::Full => full_colour(luma, cb256, cr256, maxval),
        Range::Studio => ycbcr_frac_to_rgb8_studio(luma, cb256, cr256),
    })
}

// The colour of a pixel by the fixed kernel, at maxval 255, on whole chroma. Refusal: 13.
#[tactic(auto, using(crate::proofs::Colours::fixed_passed), unfolding(crate::specs::Pixels::fixed_pixel))]
pub fn ycbcr_to_rgb8_fixed16(y: u32, cb: u32, cr: u32) -> Result<Rgb, Refusal>
    ensures { result ≡ fixed_pixel y cb cr }
{
    fixed_answer(y, cb, cr)?;
    // By `as`: greater numbers were refused, and TryFrom would have an error that can't be.
    Ok(ycbcr_to_rgb8_fixed(y as u16, cb as u16, cr as u16))
}
