// The slopes of eight cells at a time, by vectors: the steps of slopes, each for eight cells side by side.
//
// A loop over `slope_inside` isn't made wide by the compiler, which keeps a comparison of floats as it stands.
ghost use Rattle.std.specs.Prelude.{◌≡◌, ℕ, ◌+◌, ◌≤◌, ◌<◌, Float, length, get_or};
ghost use Rattle.std.specs.Float.{nan};
ghost use Rattle.laws.specs.Floats.{f32, ◌⊕◌, ◌⊗◌, ◌⊘◌};
ghost use Rattle.laws.specs.Lists.{table};
ghost use Rattle.guided_down.specs.Inner.Slopes.{slope_by, mean_at, sum_inside, mean_inside, slope_inside, Inside, AllInside};

use crate::slopes::Stats;
use fround::fmax_lanes;
use guided_window::Window;
use lanes::{Lanes, load};
use std::simd::f32x8;

// The means of nine cells, given the sums of three rows.
fn means(a: f32x8, b: f32x8, c: f32x8) -> f32x8
    ensures { (f g h : ℕ → Float) → a ≡ table 8 f → b ≡ table 8 g → c ≡ table 8 h
        → result ≡ table 8 (λ k. (f k ⊕ g k ⊕ h k) ⊗ (f32 1 ⊘ f32 9)) }
{
    ((a + b) + c) * f32x8::splat(1.0 / 9.0)
}

// The slopes, given the means of luma, its square, the component and the product.
fn slopes_by(y: f32x8, yy: f32x8, c: f32x8, yc: f32x8, eps: f32) -> f32x8
    ensures { (f g h j : ℕ → Float) → y ≡ table 8 f → yy ≡ table 8 g → c ≡ table 8 h → yc ≡ table 8 j
        → result ≡ table 8 (λ k. slope_by (f k) (g k) (h k) (j k) eps) }
{
    (yc - y * c) / (fmax_lanes(yy - y * y, f32x8::splat(0.0)) + f32x8::splat(eps))
}

// Inner: the means over the three by three cells round the cells from i on, from the sums across that three rows hold.
pub fn means_at(s: &[f32], t: Window, i: usize) -> f32x8
    requires { Inside t (i + 8) (length s.now) }
    ensures { result ≡ table 8 (λ k. mean_at s.now t (i + k)) }
{
    means(load(s, t.up + i), load(s, t.at + i), load(s, t.down + i))
}

// The sums of the cells from i on of the row at src, each with both its neighbours.
fn sums_inside(s: &[f32], src: usize, i: usize) -> f32x8
    requires { (0 < i) × (src + (i + 9) ≤ length s.now) }
    ensures { result ≡ table 8 (λ k. sum_inside s.now src (i + k)) }
{
    let left: f32x8 = load(s, src + (i - 1));
    let right: f32x8 = load(s, src + (i + 1));
    (left + load(s, src + i)) + right
}

// The means over the three by three cells round the cells from i on, from the samples of three rows: their sums across are formed again.
fn means_inside(s: &[f32], t: Window, i: usize) -> f32x8
    requires { (0 < i) × Inside t (i + 9) (length s.now) }
    ensures { result ≡ table 8 (λ k. mean_inside s.now t (i + k)) }
{
    means(
        sums_inside(s, t.up, i),
        sums_inside(s, t.at, i),
        sums_inside(s, t.down, i),
    )
}

// Inner: a component's slopes at the cells from i on, given luma's means and those of its square there.
pub fn slopes_inside(
    s: &[f32],
    t: Stats,
    y: f32x8,
    yy: f32x8,
    eps: f32,
    i: usize,
) -> [f32; Lanes::CELLS]
    requires { (0 < i) × AllInside t (i + 9) (length s.now)
        × (y ≡ table 8 (λ k. mean_at s.now t.y (i + k))) × (yy ≡ table 8 (λ k. mean_at s.now t.yy (i + k))) }
    ensures { (k : ℕ) → k < 8 → get_or result k nan ≡ slope_inside s.now t eps (i + k) }
{
    let c = means_inside(s, t.c, i);
    let yc = means_at(s, t.yc, i);
    slopes_by(y, yy, c, yc, eps).to_array()
}
