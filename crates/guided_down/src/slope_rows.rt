// A component's row of slopes alone: the first cell, blocks of eight, the last cell.
ghost use Rattle.std.specs.Prelude.{◌≡◌, ℕ, ◌+◌, ◌*◌, ◌≤◌, ◌<◌, length, get_or};
ghost use Rattle.std.specs.Float.{nan};
ghost use Rattle.guided_down.specs.Inner.Slopes.{slope_inside, slope_run, slopes_from, slopes_inside, AllInside, Clear, slope_row};
ghost use Rattle.image.specs.Inner.Tests.{Sound};
ghost use Rattle.image.specs.Scratch.{scratch_need};

use crate::slope_blocks::{means_at, slopes_inside};
use crate::slopes::{Stats, epsilon_of, slope_at, slope_run, stats_at};
use guided_window::{Buffer, row_at};
use image::{Chroma, Layout};
use lanes::Lanes;

// Inner: the slope at cell i of n, to s from dst + i on.
#[tactic(auto, using(crate::proofs::Statistics::cell_is))]
pub fn slope_cell(s: &mut [f32], t: Stats, eps: f32, n: usize, dst: usize, i: usize)
    requires { (i < n) × AllInside t n (length s.old) × (dst + n ≤ length s.old) }
    ensures { s.new ≡ slopes_from t eps n dst i 1 s.old }
{
    let v = slope_at(s, t, eps, n, i);
    s[dst + i] = v;
}

// The slopes at the eight cells from i on, by value: a block is read before any of it is stored.
#[tactic(auto, using(crate::proofs::Statistics::all_less))]
fn slope_eight(s: &[f32], t: Stats, eps: f32, i: usize) -> [f32; Lanes::CELLS]
    requires { (0 < i) × AllInside t (i + 9) (length s.now) }
    ensures { (k : ℕ) → k < 8 → get_or result k nan ≡ slope_inside s.now t eps (i + k) }
{
    let y = means_at(s, t.y, i);
    let yy = means_at(s, t.yy, i);
    slopes_inside(s, t, y, yy, eps, i)
}

// The slopes at `count` blocks of eight cells from cell `from` on, to s from dst + from on. A block's first cell is a multiple of the
// counter, which spares an address for each load.
#[tactic(auto, using(crate::proofs::Statistics::all_less, crate::proofs::Statistics::eights_more), unfolding(laws::specs::Lists::put, crate::specs::Inner::Slopes::slopes_inside))]
fn slope_eights(s: &mut [f32], t: Stats, eps: f32, from: usize, count: usize, dst: usize)
    requires { (0 < from) × AllInside t (from + 8 * count + 1) (length s.old)
        × Clear t dst (from + 8 * count + 1) × (dst + (from + 8 * count) ≤ length s.old) }
    ensures { s.new ≡ slopes_inside t eps dst from (8 * count) s.old }
{
    for b in 0..count {
        let i = from + 8 * b;
        let v = slope_eight(s, t, eps, i);
        lanes::put_block(s, dst + i, v);
    }
}

// The slopes at n cells, to s from dst on: the first, blocks of eight, one more block that ends with the last but one and overlaps those
// before, and the last; fewer than ten one by one.
#[tactic(auto, using(crate::proofs::Statistics::all_less, crate::proofs::Statistics::clear_less, crate::proofs::Statistics::cells_are))]
fn slope_cells(s: &mut [f32], t: Stats, eps: f32, n: usize, dst: usize)
    requires { AllInside t n (length s.old) × Clear t dst n × (dst + n ≤ length s.old) }
    ensures { s.new ≡ slope_run t eps dst n s.old }
{
    if n < 10 {
        slope_run(s, t, eps, n, dst);
        return;
    }
    slope_cell(s, t, eps, n, dst, 0);
    slope_eights(s, t, eps, 1, (n - 2) / 8, dst);
    slope_eights(s, t, eps, n - 9, 1, dst);
    slope_cell(s, t, eps, n, dst, n - 1);
}

// Inner: the slopes of a component's chroma row j, from what scratch holds of the rows round it, to their row buffer.
pub fn slope_row(layout: Layout, k: Chroma, j: usize, s: &mut [f32])
    requires { Sound layout × (j < layout.ch) × (scratch_need layout ≤ length s.old) }
    ensures { s.new ≡ slope_row layout k j s.old }
{
    let t = stats_at(layout, k, j);
    let dst = row_at(layout, Buffer::Slopes(k), j);
    slope_cells(s, t, epsilon_of(layout), layout.cw, dst);
}
