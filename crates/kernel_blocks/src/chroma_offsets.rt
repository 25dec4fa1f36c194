// What chroma adds to luma, at maxval 255, without a division: the block's form of the three offsets, in single precision.
// Chroma is a float here, in 256ths less its centre.
ghost use Rattle.std.specs.Prelude.{◌≡◌, ℕ, ◌≤◌};
ghost use Rattle.kernels.specs.Kernels.{centred, green_offset};
ghost use Rattle.kernels.specs.Inner.Forms.{chroma_offset, Biased};
ghost use Rattle.kernel_blocks.specs.Inner.Floating.{Centred, Chroma, Multiplier, IsMultiplier, OnGrid, Margin, green_bits, Sure};

use kernels::Bias;

// Inner: the grid of floats far up, which are 256 apart. Chroma is in 256ths, so that a sum there is rounded to a whole offset.
#[derive(Clone, Copy)]
pub struct Grid;

impl Grid {
    // 1.5 * 2^31, the middle of the numbers that are 256 apart. A sum with it is rounded to a whole offset, which its bits count.
    pub const MIDDLE: f32 = 3_221_225_472.0;

    // The bits of MIDDLE, 158 * 2^23 + 2^22, and so the bias of an offset.
    pub const BITS: u32 = 1_329_594_368;

    // 1/32 of a 256th: what green's offset has to be from a half at least, to be sure of.
    pub const MARGIN: f32 = 0.031_25;
}

// Inner: the offset of red at Cr, or of blue at Cb, plus the grid's bits.
//
// The float product is near enough for every chroma, and `tie` sends blue's halves up.
pub fn chroma_offset(k: f32, tie: f32, x: f32) -> u32
    requires { IsMultiplier k tie × Chroma x }
    ensures { (m c : ℕ) → Multiplier k tie m → Centred x c → OnGrid (chroma_offset m (centred c)) result }
{
    f32::to_bits(Grid::MIDDLE + (k * x + tie))
}

// Green's offset with a margin, plus the grid's bits. Where the margin added and taken away give the same, that is the offset.
//
// The multipliers are the floats nearest to 202,008 / 587,000 and 419,198 / 587,000.
fn green_near(cb: f32, cr: f32, margin: f32) -> u32
    requires { Chroma cb × Chroma cr × Margin margin }
    ensures { (result ≡ green_bits cb cr margin) × (result ≤ 2147483647) }
{
    f32::to_bits(Grid::MIDDLE - (0.344_136_3 * cb + 0.714_136_3 * cr + margin))
}

// Inner: 0 where green is sure: where both margins give the same offset.
pub fn green_doubt(cb: f32, cr: f32) -> u32
    requires { Chroma cb × Chroma cr }
    ensures { result ≡ 0 → Sure cb cr }
{
    green_near(cb, cr, Grid::MARGIN) ^ green_near(cb, cr, -Grid::MARGIN)
}

// Inner: chroma in 256ths, back as a whole number. With 2^23 and the centre added its bits count from those of 2^23.
//
// 8,421,376 is 2^23 + 32,768, with fround's `Rounding::GRID` as 2^23, and 1,258,291,200 is 150 * 2^23, the bits of 2^23.
pub fn in_256ths(x: f32) -> u32
    requires { Chroma x }
    ensures { (result ≤ 65536) × ((c : ℕ) → Centred x c → result ≡ c) }
{
    f32::to_bits(8_421_376.0 + x) - 1_258_291_200
}

// The offset of green, plus its bias, in whole numbers; chroma in 256ths.
//
// n is what it falls short of 272 by, in 2^41ths: Cb's multiplier for both and the rest of Cr's, near enough for every pair.
// 2,956,108,189 is 101,004 * 2^41 / 75,136,000, and 3,178,275,799 is 209,599 * 2^41 / 75,136,000 less that, both cut to whole numbers.
// The last number is 3,088,895 * 2^41 / 75,136,000 and a little more than the cut ones lack at the greatest chroma; 3,088,895 is
// 273 * 75,136,000 - 1 - 20,509,039,104, the last of which is the plain form's first number.
fn green_whole(cb: u32, cr: u32) -> u32
    requires { (cb ≤ 65536) × (cr ≤ 65536) }
    ensures { Biased (green_offset (centred cb) (centred cr)) Bias.GREEN result }
{
    let both = u64::from(cb + cr);
    let n = 2_956_108_189 * both + 3_178_275_799 * u64::from(cr) + 90_403_456_700;
    // By `as`: the quotient is 272 at most, and TryFrom would have an error that can't be.
    272 - (n >> 41) as u32
}

// Inner: the offset of green, plus the grid's bits, for every chroma, by whole numbers alone.
pub fn green_offset(cb: f32, cr: f32) -> u32
    requires { Chroma cb × Chroma cr }
    ensures { (b r : ℕ) → Centred cb b → Centred cr r → OnGrid (green_offset (centred b) (centred r)) result }
{
    green_whole(in_256ths(cb), in_256ths(cr)) + (Grid::BITS - Bias::GREEN)
}

// Inner: the offset of green, plus the grid's bits: by floats where there is no doubt, and otherwise by whole numbers.
//
// The doubt is a block's and not a pixel's, so that one form serves all of it.
pub fn green_by_doubt(cb: f32, cr: f32, doubt: u32) -> u32
    requires { Chroma cb × Chroma cr × (doubt ≡ 0 → Sure cb cr) }
    ensures { (b r : ℕ) → Centred cb b → Centred cr r → OnGrid (green_offset (centred b) (centred r)) result }
{
    if doubt == 0 {
        return green_near(cb, cr, Grid::MARGIN);
    }
    green_offset(cb, cr)
}
