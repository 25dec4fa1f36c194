// Rounding floats to whole samples: the original's src/jpeg/fround.rs, and document 01's 'Rounding'.
//
// It gives two roundings that limit, by the grid and from the bits, a third for chroma in 256ths, and fmin and fmax by comparison.
// Roundings are inner in document 01, so no public crate passes them on. specs/Rounding says what each gives, proofs/Laws has what
// callers ask of it.
#![tactic(auto)]

mod from_bits;
mod vectors;

ghost use Rattle.std.specs.Prelude.{◌≡◌, ◌≤◌, min};
ghost use Rattle.std.specs.Float.Ieee.{add};
ghost use Rattle.std.specs.Float.{binary32};
ghost use Rattle.fround.specs.Rounding.{fmin, fmax, round_clamped, is_same_float};
ghost use Rattle.fround.specs.Inner.Rounding.{clamped, Rounded};

pub use from_bits::whole;
pub use vectors::{centred_256ths, fmax_lanes, fmin_lanes, rounded};

// The constants of the roundings.
#[derive(Clone, Copy)]
pub struct Rounding;

impl Rounding {
    // 2^23: an f32 at or above it has a unit in the last place of 1.
    pub const GRID: f32 = 8_388_608.0;

    // 2^22, half of GRID: the largest limit of the grid rounding. A sum with GRID then stays below 2^24, where the unit is still 1.
    pub const LIMIT: u32 = 4_194_304;

    // 65,535 * 256, the greatest sample in 256ths: the largest limit of the rounding from the bits.
    pub const WIDE: u32 = 16_776_960;

    // 2^23, GRID as a whole number: the weight of the exponent's field in a bit pattern, below which the digits lie.
    pub const FIELD: u32 = 8_388_608;
}

// Inner: the smaller of two numbers by comparison; b where either is not a number, where `f32::min` gives the one that is a number.
pub fn fmin(a: f32, b: f32) -> f32
    ensures { result ≡ fmin a b }
{
    if a < b { a } else { b }
}

// Inner: the larger of two numbers by comparison; b where either is not a number, where `f32::max` gives the one that is a number.
pub fn fmax(a: f32, b: f32) -> f32
    ensures { result ≡ fmax a b }
{
    if a > b { a } else { b }
}

// Inner: whether x and y are the same value, the sign of zero counted. A comparison can't tell: -0 equals 0, and a NaN not itself.
pub fn same_float(x: f32, y: f32) -> bool
    ensures { result ≡ is_same_float x y }
{
    if x == x {
        if y == y {
            return f32::to_bits(x) == f32::to_bits(y);
        }
        return false;
    }
    y != y
}

// x limited to 0..=max; 0 where x is not a number, since the comparison with 0.0 then fails. By `as`: no From, since a float doesn't hold
// every u32.
fn clamp(x: f32, max: u32) -> f32
    requires { max ≤ 16777216 }
    ensures { result ≡ clamped max x }
{
    fmin(fmax(x, 0.0), max as f32)
}

// A value moved onto the grid, where consecutive floats are 1 apart: the sum rounds it to a whole number, ties to even.
fn on_grid(c: f32) -> f32
    ensures { result ≡ add binary32 c Rounding.GRID }
{
    c + Rounding::GRID
}

// Inner: x limited to 0..=max, and that to the nearest whole number, halves up. A max over LIMIT counts as LIMIT.
//
// With c the limited value, the digits of c on the grid are the nearest whole number n, a tie's even neighbour.
// c - n is exact, and 1/2 exactly where a tie went down to the even neighbour.
pub fn round_clamped_by_grid(x: f32, max: u32) -> u32
    ensures { Rounded (min max Rounding.LIMIT) x result }
{
    let c = clamp(x, max.min(Rounding::LIMIT));
    let t = on_grid(c);
    let n = f32::to_bits(t) % Rounding::FIELD;
    if c - (t - Rounding::GRID) == 0.5 {
        n + 1
    } else {
        n
    }
}

// Inner: x limited to 0..=max, and that to the nearest whole number, halves up, from the float's bits. A max over WIDE counts as WIDE.
//
// It serves limits past LIMIT, up to which alone the grid keeps every whole number. The exponent's field e says how many of the
// 24 digits s lie below one: 150 - e, since 150 is the field of GRID, whose digits are all whole. One more of them is kept, and
// halved upward. 126 is the field of one half, so that below it the result is 0.
pub fn round_clamped_by_bits(x: f32, max: u32) -> u32
    ensures { Rounded (min max Rounding.WIDE) x result }
{
    let b = f32::to_bits(clamp(x, max.min(Rounding::WIDE)));
    let e = b / Rounding::FIELD;
    if e < 126 {
        0
    } else {
        let s = Rounding::FIELD + b % Rounding::FIELD;
        ((s * 2 >> (150 - e)) + 1) / 2
    }
}
