// Both components' rows of slopes side by side, so that luma's means are made once for the two.
//
// What slope_rows has for one component is here again for two. A const number of components is no plainer: it would carry arrays of rows and of
// places, and an invariant over so many runs, one behind another, where `Pair` (proofs/Pairs) has two.
ghost use Rattle.std.specs.Prelude.{◌≡◌, [], ℕ, ◌+◌, ◌*◌, ◌≤◌, ◌<◌, length, get_or};
ghost use Rattle.std.specs.Float.{nan};
ghost use Rattle.guided_down.specs.Inner.Slopes.{slope_inside, AllInside, SameLuma, PairLent, pair_run, pairs_from, pairs_inside, slope_rows};
ghost use Rattle.image.specs.Inner.Tests.{Sound};
ghost use Rattle.image.specs.Scratch.{scratch_need};

use crate::slope_blocks::{means_at, slopes_inside};
use crate::slope_rows::slope_cell;
use crate::slopes::{Stats, epsilon_of, slope_run, stats_at};
use guided_window::{Buffer, row_at};
use image::{Chroma, Layout};
use lanes::Lanes;

// The slopes of two components at cell i of n, to s from a + i and from b + i on.
#[tactic(auto, using(crate::proofs::Statistics::all_less, crate::proofs::Statistics::pair_cell_is))]
fn pair_cell(s: &mut [f32], t: Stats, u: Stats, eps: f32, n: usize, a: usize, b: usize, i: usize)
    requires { (i < n) × PairLent t u a b n (length s.old) }
    ensures { s.new ≡ pairs_from t u eps n a b i 1 s.old }
{
    slope_cell(s, t, eps, n, a, i);
    slope_cell(s, u, eps, n, b, i);
}

// The slopes of two components at the eight cells from i on, by value.
fn pair_eight(s: &[f32], t: Stats, u: Stats, eps: f32, i: usize) -> [[f32; Lanes::CELLS]; 2]
    requires { (0 < i) × AllInside t (i + 9) (length s.now) × AllInside u (i + 9) (length s.now) × SameLuma t u }
    ensures { (k : ℕ) → k < 8 → (get_or (get_or result 0 []) k nan ≡ slope_inside s.now t eps (i + k))
        × (get_or (get_or result 1 []) k nan ≡ slope_inside s.now u eps (i + k)) }
{
    let y = means_at(s, t.y, i);
    let yy = means_at(s, t.yy, i);
    [
        slopes_inside(s, t, y, yy, eps, i),
        slopes_inside(s, u, y, yy, eps, i),
    ]
}

// The slopes of two components at `count` blocks of eight cells from cell `from` on, to s from a + from and from b + from on.
fn pair_eights(
    s: &mut [f32],
    t: Stats,
    u: Stats,
    eps: f32,
    from: usize,
    count: usize,
    a: usize,
    b: usize,
)
    requires { (0 < from) × PairLent t u a b (from + 8 * count + 1) (length s.old) }
    ensures { s.new ≡ pairs_inside t u eps a b from (8 * count) s.old }
{
    for n in 0..count {
        let i = from + 8 * n;
        let [v, x] = pair_eight(s, t, u, eps, i);
        lanes::put_block(s, a + i, v);
        lanes::put_block(s, b + i, x);
    }
}

// The slopes of two components at n cells, to s from a and from b on: cells and blocks as `slope_cells` has them.
#[tactic(auto, using(crate::proofs::Statistics::all_less, crate::proofs::Statistics::pair_less, crate::proofs::Statistics::behind_clear, crate::proofs::Statistics::pairs_are, crate::proofs::Statistics::pair_run_is))]
fn pair_cells(s: &mut [f32], t: Stats, u: Stats, eps: f32, n: usize, a: usize, b: usize)
    requires { PairLent t u a b n (length s.old) }
    ensures { s.new ≡ pair_run t u eps a b n s.old }
{
    if n < 10 {
        slope_run(s, t, eps, n, a);
        slope_run(s, u, eps, n, b);
        return;
    }
    pair_cell(s, t, u, eps, n, a, b, 0);
    pair_eights(s, t, u, eps, 1, (n - 2) / 8, a, b);
    pair_eights(s, t, u, eps, n - 9, 1, a, b);
    pair_cell(s, t, u, eps, n, a, b, n - 1);
}

// Inner: the slopes of both components' chroma row j, from what scratch holds of the rows round it, to their row buffers.
pub fn slope_rows(layout: Layout, j: usize, s: &mut [f32])
    requires { Sound layout × (j < layout.ch) × (scratch_need layout ≤ length s.old) }
    ensures { s.new ≡ slope_rows layout j s.old }
{
    let t = stats_at(layout, Chroma::Cb, j);
    let u = stats_at(layout, Chroma::Cr, j);
    let a = row_at(layout, Buffer::Slopes(Chroma::Cb), j);
    let b = row_at(layout, Buffer::Slopes(Chroma::Cr), j);
    pair_cells(s, t, u, epsilon_of(layout), layout.cw, a, b);
}
