// The exact kernel in studio range for one pixel: T.871's equations on 255 * (Y - 16) / 219 and 255 * (C - 128) / 224, in whole numbers, with
// one division for each channel.
ghost use Rattle.std.specs.Prelude.{◌≡◌, ◌≤◌};
ghost use Rattle.kernels.specs.T871.{studio255};
ghost use Rattle.kernels.specs.Inner.Forms.{colour_of, studio_chroma};

use crate::bytes::{Rgb, limit_quot};
use crate::exact::{Multiplier, limit_chroma};

// Inner: red or blue, k its multiplier in thousandths: 255 * (224 * 256,000 (y - 16) + 219 k (c - 32,768)) over 219 * 224 * 256,000, both doubled,
// and a half added.
//
// 57,344,000 is 224 * 256,000, and 12,558,336,000 is 219 times that. 917,504,000 is 16 * 57,344,000, and 7,176,192 is 219 * 32,768. The sum
// is below 2^60.
#[tactic(auto, using(crate::proofs::Studios::studio_chroma_is))]
pub fn studio_chroma(k: u64, y: u16, c: u64) -> u8
    requires { (k ≤ 1772) × (c ≤ 65536) }
    ensures { result ≡ studio_chroma k y c }
{
    limit_quot(
        510 * (57_344_000 * u64::from(y) + 219 * k * c) + 12_558_336_000,
        510 * (917_504_000 + 7_176_192 * k),
        25_116_672_000,
    )
}

// Inner: green: 255 * (224 * 150,272,000 (y - 16) - 219 * 202,008 (cb - 32,768) - 219 * 419,198 (cr - 32,768)) over 219 * 224 * 150,272,000,
// both doubled, and a half added.
//
// 33,660,928,000 is 224 * 150,272,000, and 7,371,743,232,000 is 219 times that; 538,574,848,000 is 16 times. 44,239,752 and 91,804,362 are
// 219 * 202,008 and 219 * 419,198, and 4,457,893,527,552 is 32,768 times their sum.
#[tactic(auto, using(crate::proofs::Studios::studio_green))]
pub fn studio_green(y: u16, cb: u64, cr: u64) -> u8
    requires { (cb ≤ 65536) × (cr ≤ 65536) }
    ensures { result ≡ (studio255 y cb cr).green }
{
    limit_quot(
        510 * (33_660_928_000 * u64::from(y) + 4_457_893_527_552) + 7_371_743_232_000,
        510 * (538_574_848_000 + 44_239_752 * cb + 91_804_362 * cr),
        14_743_486_464_000,
    )
}

// Inner: the exact kernel in studio range, for any luma and any chroma in 256ths.
pub fn ycbcr_frac_to_rgb8_studio(y: u16, cb256: u32, cr256: u32) -> Rgb
    ensures { colour_of result ≡ studio255 y cb256 cr256 }
{
    let cb = u64::from(limit_chroma(cb256));
    let cr = u64::from(limit_chroma(cr256));
    Rgb {
        r: studio_chroma(u64::from(Multiplier::RED), y, cr),
        g: studio_green(y, cb, cr),
        b: studio_chroma(u64::from(Multiplier::BLUE), y, cb),
    }
}
