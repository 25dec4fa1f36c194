// The exact kernel for one pixel: T.871's equations in whole numbers, with one division for each channel.
ghost use Rattle.std.specs.Prelude.{◌≡◌, ◌+◌, ◌*◌, ◌/◌, ◌≤◌, min};
ghost use Rattle.kernels.specs.Kernels.{exact255, exact_at};
ghost use Rattle.kernels.specs.Inner.Forms.{colour_of, Suits, plus_chroma, chroma_at};

use crate::bytes::{Rgb, limit_quot, limit8};
use crate::offsets::{Bias, raised};

// What red and blue multiply chroma by, in thousandths.
#[derive(Clone, Copy)]
pub struct Multiplier;

impl Multiplier {
    pub const RED: u32 = 1_402;

    pub const BLUE: u32 = 1_772;
}

// Inner: chroma in 256ths limited to 65,536, so that it lies within 32,768 of its centre.
pub fn limit_chroma(c: u32) -> u32
    ensures { result ≡ min c 65536 }
{
    c.min(65_536)
}

// Red or blue at maxval 255: k is its multiplier in thousandths, c the chroma in 256ths that it takes.
#[tactic(auto, using(crate::proofs::Channels::plus_chroma_is))]
fn plain_chroma(k: u32, bias: u32, y: u16, c: u32) -> u8
    requires { Suits k bias × (c ≤ 65536) }
    ensures { result ≡ plus_chroma k y c }
{
    limit8(u32::from(y) + raised(k, bias, c) / 256_000, bias)
}

// Green at maxval 255, with numerator and denominator halved: 101,004, 209,599 and 75,136,000 are half of 202,008, 419,198 and 150,272,000.
//
// The first number raises the quotient by its bias and a half and takes chroma from its centre:
// 137 * 75,136,000 + 37,568,000 + 32,768 * (101,004 + 209,599).
#[tactic(auto, using(crate::proofs::Channels::green_255))]
fn plain_green(y: u16, cb: u32, cr: u32) -> u8
    requires { (cb ≤ 65536) × (cr ≤ 65536) }
    ensures { result ≡ (exact255 y cb cr).green }
{
    let n: u64 = 20_509_039_104 - 101_004 * u64::from(cb) - 209_599 * u64::from(cr);
    // By `as`: the quotient is 272 at most, and TryFrom would have an error that can't be.
    limit8(u32::from(y) + (n / 75_136_000) as u32, Bias::GREEN)
}

// Inner: the exact kernel at maxval 255, for any luma and any chroma in 256ths.
pub fn ycbcr_frac_to_rgb8_8bit(y: u16, cb256: u32, cr256: u32) -> Rgb
    ensures { colour_of result ≡ exact255 y cb256 cr256 }
{
    let cb = limit_chroma(cb256);
    let cr = limit_chroma(cr256);
    Rgb {
        r: plain_chroma(Multiplier::RED, Bias::RED, y, cr),
        g: plain_green(y, cb, cr),
        b: plain_chroma(Multiplier::BLUE, Bias::BLUE, y, cb),
    }
}

// The chroma centre of maxval d, in 256ths.
fn centre(d: u64) -> u64
    requires { d ≤ 65535 }
    ensures { result ≡ 256 * ((d + 1) / 2) }
{
    256 * ((d + 1) / 2)
}

// Red or blue at any maxval d: 255 * (256,000 y + k (c - centre)) over 256,000 d, both doubled, and a half added, which is 256,000 d then.
#[tactic(auto, using(crate::proofs::Channels::chroma_at_is))]
fn chroma_at(k: u64, d: u64, y: u16, c: u64) -> u8
    requires { (k ≤ 1772) × (1 ≤ d) × (d ≤ 65535) × (c ≤ 16776960) }
    ensures { result ≡ chroma_at k d y c }
{
    limit_quot(
        510 * (256_000 * u64::from(y) + k * c) + 256_000 * d,
        510 * (k * centre(d)),
        512_000 * d,
    )
}

// Green at any maxval d, as red and blue: 255 * (150,272,000 y - 202,008 (cb - centre) - 419,198 (cr - centre)) over 150,272,000 d,
// both doubled, and a half added. 621,206 is 202,008 + 419,198.
#[tactic(auto, using(crate::proofs::Channels::green_at))]
fn green_at(d: u64, y: u16, cb: u64, cr: u64) -> u8
    requires { (1 ≤ d) × (d ≤ 65535) × (cb ≤ 16776960) × (cr ≤ 16776960) }
    ensures { result ≡ (exact_at d y cb cr).green }
{
    limit_quot(
        510 * (150_272_000 * u64::from(y) + 621_206 * centre(d)) + 150_272_000 * d,
        510 * (202_008 * cb + 419_198 * cr),
        300_544_000 * d,
    )
}

// Inner: the exact kernel at a maxval other than 255, at which the fraction with luma is rounded as one.
pub fn ycbcr_frac_to_rgb8_at(y: u16, cb256: u32, cr256: u32, maxval: u32) -> Rgb
    requires { (cb256 ≤ 16776960) × (cr256 ≤ 16776960) × (1 ≤ maxval) × (maxval ≤ 65535) }
    ensures { colour_of result ≡ exact_at maxval y cb256 cr256 }
{
    let d = u64::from(maxval);
    let cb = u64::from(cb256);
    let cr = u64::from(cr256);
    Rgb {
        r: chroma_at(u64::from(Multiplier::RED), d, y, cr),
        g: green_at(d, y, cb, cr),
        b: chroma_at(u64::from(Multiplier::BLUE), d, y, cb),
    }
}
