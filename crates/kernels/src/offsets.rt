// What chroma adds to luma at maxval 255, raised by a bias so that numbers without a sign hold it.
ghost use Rattle.std.specs.Prelude.{◌≡◌, ◌≤◌};
ghost use Rattle.kernels.specs.Inner.Forms.{Suits, raised};

// What is added to an offset, no offset being further below 0.
#[derive(Clone, Copy)]
pub struct Bias;

impl Bias {
    // Above 1.402 * 128, which is 179.456.
    pub const RED: u32 = 180;

    // Above 621,206 / 587,000 * 128, which is 135.46: green's two multipliers together.
    pub const GREEN: u32 = 137;

    // Above 1.772 * 128, which is 226.816.
    pub const BLUE: u32 = 227;
}

// Inner: the numerator of red's or blue's offset over 256,000, raised by its bias and a half; c is chroma in 256ths.
//
// k is in thousandths, so that 256,000 is one, 128,000 a half, and 32,768 the centre of chroma. 116,304,896 is blue's at c = 65,536.
pub fn raised(k: u32, bias: u32, c: u32) -> u32
    requires { Suits k bias × (c ≤ 65536) }
    ensures { (result ≡ raised k bias c) × (result ≤ 116304896) }
{
    k * c + (256_000 * bias + 128_000 - 32_768 * k)
}
