// The fixed kernel for one pixel, on whole chroma, with multipliers in 65,536ths.
//
// It is no form of the exact kernel: blue of (230, 3, 128) is 8 by it and 9 by that.
//
// Sums shifted by 16 become u32 by `as`: they fit, and TryFrom would have an error that can't be.
ghost use Rattle.std.specs.Prelude.{◌≡◌, ◌+◌, ◌-◌, ◌*◌, ◌<◌, ◌≤◌};
ghost use Rattle.kernels.specs.Kernels.{fixed255};
ghost use Rattle.kernels.specs.Inner.Forms.{colour_of, raised_fixed};

use crate::bytes::{Rgb, limit8};
use crate::offsets::Bias;
use crate::tables::{blue_raised, green_cb_raised, green_cr_raised, red_raised};

// What chroma is multiplied by, in 65,536ths: document 01's four numbers.
#[derive(Clone, Copy)]
struct Fixed;

impl Fixed {
    const CR_TO_R: u64 = 91_881;

    const CB_TO_G: u64 = 22_554;

    const CR_TO_G: u64 = 46_802;

    const CB_TO_B: u64 = 116_130;
}

// Red's or blue's offset by its multiplier k, worked out and raised by its bias; 32,768 is the half and 128 the centre of chroma.
fn raised_offset(k: u64, bias: u32, c: u16) -> u32
    requires { (k ≤ 116130) × (bias ≤ 227) × (128 * k < 65536 * bias + 32768) }
    ensures { result ≡ raised_fixed k bias c }
{
    let n = k * u64::from(c) + (65_536 * u64::from(bias) + 32_768 - 128 * k);
    (n >> 16) as u32
}

// Red's offset by Cr, raised by `Bias::RED`: read from its table where Cr is a byte, worked out above.
fn red_offset(cr: u16) -> u32
    ensures { result ≡ raised_fixed 91881 180 cr }
{
    if let Ok(c) = u8::try_from(cr) {
        return red_raised(c);
    }
    raised_offset(Fixed::CR_TO_R, Bias::RED, cr)
}

// Blue's offset by Cb, raised by `Bias::BLUE`: read from its table where Cb is a byte, worked out above.
fn blue_offset(cb: u16) -> u32
    ensures { result ≡ raised_fixed 116130 227 cb }
{
    if let Ok(c) = u8::try_from(cb) {
        return blue_raised(c);
    }
    raised_offset(Fixed::CB_TO_B, Bias::BLUE, cb)
}

// Green's part by Cb, raised by 65,536 * 22,511, so that no chroma of sixteen bits takes it below 0: read where Cb is a byte, worked out
// above. An entry comes raised by 44 of the 22,511, so that 65,536 * 22,467 are missing; 1,478,167,808 has the centre 128 * 22,554 in it.
fn green_cb_part(cb: u16) -> u64
    ensures { result ≡ 1478167808 - 22554 * cb }
{
    if let Ok(c) = u8::try_from(cb) {
        return u64::from(green_cb_raised(c)) + 1_472_397_312;
    }
    1_478_167_808 - Fixed::CB_TO_G * u64::from(cb)
}

// Green's part by Cr, raised by 65,536 * 46,845: read where Cr is a byte, worked out above. An entry comes raised by 91 of the 46,845, so
// that 65,536 * 46,754 are missing; 3,076,057,344 has the half and the centre 128 * 46,802 in it.
fn green_cr_part(cr: u16) -> u64
    ensures { result ≡ 3076057344 - 46802 * cr }
{
    if let Ok(c) = u8::try_from(cr) {
        return u64::from(green_cr_raised(c)) + 3_064_070_144;
    }
    3_076_057_344 - Fixed::CR_TO_G * u64::from(cr)
}

// Green, whose two parts are summed before the shift. Their biases make 65,536 * 69,356.
fn fixed_green(y: u16, cb: u16, cr: u16) -> u8
    ensures { result ≡ (fixed255 y cb cr).green }
{
    let n = green_cb_part(cb) + green_cr_part(cr);
    limit8(u32::from(y) + (n >> 16) as u32, 69_356)
}

// Inner: the fixed kernel, which is for maxval 255, on whole chroma.
pub fn ycbcr_to_rgb8_fixed(y: u16, cb: u16, cr: u16) -> Rgb
    ensures { colour_of result ≡ fixed255 y cb cr }
{
    Rgb {
        r: limit8(u32::from(y) + red_offset(cr), Bias::RED),
        g: fixed_green(y, cb, cr),
        b: limit8(u32::from(y) + blue_offset(cb), Bias::BLUE),
    }
}
