// The smaller and the larger of two numbers, lane by lane, and roundings by them. A loop over `fmin` or `fmax` isn't made wide by the
// compiler, which keeps a comparison of floats as it stands; a comparison of vectors is wide as it stands.
ghost use Rattle.std.specs.Prelude.{◌≡◌, ℕ, ◌≤◌, Float};
ghost use Rattle.std.specs.Simd.Lanes.{zip2};
ghost use Rattle.laws.specs.Floats.{f32, ◌⊖◌, ◌⊗◌};
ghost use Rattle.laws.specs.Lists.{table};
ghost use Rattle.fround.specs.Rounding.{fmin, fmax, round_clamped};
ghost use Rattle.fround.specs.Inner.Rounding.{origin, higher};

use crate::Rounding;
use crate::from_bits::whole;
use std::simd::{Simd, f32x16, u32x16};

// Inner: `fmin` of each two lanes.
pub fn fmin_lanes<const N: usize>(a: Simd<f32, N>, b: Simd<f32, N>) -> Simd<f32, N>
    ensures { result ≡ zip2 fmin a.entry b.entry }
{
    a.simd_lt(b).select(a, b)
}

// Inner: `fmax` of each two lanes.
pub fn fmax_lanes<const N: usize>(a: Simd<f32, N>, b: Simd<f32, N>) -> Simd<f32, N>
    ensures { result ≡ zip2 fmax a.entry b.entry }
{
    a.simd_gt(b).select(a, b)
}

// Values limited to 0..=max.
fn clamp_lanes(v: f32x16, max: f32) -> f32x16
    ensures { (f : ℕ → Float) → v ≡ table 16 f → result ≡ table 16 (λ k. fmin (fmax (f k) origin) max) }
{
    fmin_lanes(fmax_lanes(v, f32x16::splat(0.0)), f32x16::splat(max))
}

// Limited values moved onto the grid, halves up: a tie goes to the even neighbour, and one further up to the odd one, of which the larger went
// up. 8,388,609 is GRID + 1.
fn grid_lanes(c: f32x16) -> f32x16
    ensures { (f : ℕ → Float) → c ≡ table 16 f → result ≡ table 16 (λ k. higher (f k)) }
{
    let even = c + f32x16::splat(Rounding::GRID);
    let odd = c + f32x16::splat(8_388_609.0) - f32x16::splat(1.0);
    fmax_lanes(even, odd)
}

// Inner: values in 256ths, limited to 0..=65536 and those to the nearest whole numbers, halves up; less 32,768, the centre of chroma. 8,421,376
// is GRID + 32,768, so that one difference leaves the grid and centres.
pub fn centred_256ths(v: f32x16) -> f32x16
    ensures { (f : ℕ → Float) → v ≡ table 16 f → result ≡ table 16 (λ k. f32 (round_clamped 65536 (f k ⊗ f32 256)) ⊖ f32 32768) }
{
    let c = clamp_lanes(v * f32x16::splat(256.0), 65_536.0);
    grid_lanes(c) - f32x16::splat(8_421_376.0)
}

// Inner: values limited to 0..=max and those to the nearest whole numbers, halves up. 0x4B000000 is the bits of GRID, behind which the bits of
// a value on the grid count whole numbers.
pub fn rounded(v: f32x16, max: u32) -> u32x16
    requires { max ≤ 65536 }
    ensures { (f : ℕ → Float) → v ≡ table 16 f → result ≡ table 16 (λ k. round_clamped max (f k)) }
{
    let c = clamp_lanes(v, whole(max));
    grid_lanes(c).to_bits() - u32x16::splat(0x4B00_0000)
}
