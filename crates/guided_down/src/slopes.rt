// The slopes of a chroma row's cells, from the sums of the rows round it: a step of the original's `GuidedRows::finish`.
ghost use Rattle.std.specs.Prelude.{◌≡◌, ℕ, ◌+◌, ◌*◌, ◌≤◌, ◌<◌, length};
ghost use Rattle.laws.specs.Floats.{f32, ◌⊕◌, ◌⊗◌, ◌⊘◌};
ghost use Rattle.guided_down.specs.Inner.Slopes.{slope_by, mean_at, sum_round, mean_round, slope_round, slope_with, slope_at, slope_inside, slope_run, Inside, AllInside, Clear, stats_of};
ghost use Rattle.image.specs.Inner.Tests.{Sound};

use crate::neighbours::Neighbours;
use guided::Geometry;
use guided_window::{Buffer, Window, window_at};
use image::{Chroma, Layout};

// Where the rows begin that slopes are made of: the sums of luma, of its squares and of a component's products with luma, and the
// component's samples, whose sums are formed again.
#[derive(Clone, Copy)]
pub struct Stats {
    pub y: Window,
    pub yy: Window,
    pub c: Window,
    pub yc: Window,
}

// Inner: what is added to the variance of luma, in the picture's sample range: document 01's "eps = (16·s)·s, s = maxval/255", where 16 is
// `Geometry::EPSILON`.
pub fn epsilon_of(layout: Layout) -> f32
    requires { layout.maxval ≤ 65535 }
    ensures { result ≡ Geometry.EPSILON ⊗ (f32 layout.maxval ⊘ f32 255) ⊗ (f32 layout.maxval ⊘ f32 255) }
{
    // By `as`: there is no From, since a float doesn't hold every u32.
    let s = layout.maxval as f32 / 255.0;
    Geometry::EPSILON * s * s
}

// The mean of nine cells, given the sums of three rows: document 01's "((up + middle) + down) · (1/9)".
fn mean3(a: f32, b: f32, c: f32) -> f32
    ensures { result ≡ (a ⊕ b ⊕ c) ⊗ (f32 1 ⊘ f32 9) }
{
    ((a + b) + c) * (1.0 / 9.0)
}

// The slope, given the means of luma, its square, the component and the product: covariance over variance.
fn slope_by(y: f32, yy: f32, c: f32, yc: f32, eps: f32) -> f32
    ensures { result ≡ slope_by y yy c yc eps }
{
    (yc - y * c) / (fround::fmax(yy - y * y, 0.0) + eps)
}

// The mean over the three by three cells round cell i, from the sums across that three rows hold.
#[tactic(auto, unfolding(crate::specs::Inner::Slopes::mean_at))]
fn mean_at(s: &[f32], t: Window, i: usize) -> f32
    requires { Inside t (i + 1) (length s.now) }
    ensures { result ≡ mean_at s.now t i }
{
    let u = t.up;
    let m = t.at;
    let d = t.down;
    mean3(s[u + i], s[m + i], s[d + i])
}

// The slope at cell i, given the mean of the component: the other three means are of the sums across that scratch holds.
#[tactic(auto, using(crate::proofs::Statistics::by_same), unfolding(crate::specs::Inner::Slopes::slope_with))]
fn slope_with(s: &[f32], t: Stats, eps: f32, c: f32, i: usize) -> f32
    requires { AllInside t (i + 1) (length s.now) }
    ensures { result ≡ slope_with s.now t eps c i }
{
    let y = mean_at(s, t.y, i);
    let yy = mean_at(s, t.yy, i);
    let yc = mean_at(s, t.yc, i);
    slope_by(y, yy, c, yc, eps)
}

// The sum of a cell of the row at src and its neighbours: document 01's "(left + middle) + right".
#[tactic(auto, unfolding(crate::specs::Inner::Slopes::sum_round))]
fn sum_round(s: &[f32], src: usize, c: Neighbours) -> f32
    requires { src + c.right < length s.now }
    ensures { result ≡ sum_round s.now src c }
{
    (s[src + c.left] + s[src + c.at]) + s[src + c.right]
}

// The mean over the three by three cells round a cell, from the samples of three rows: their sums across are formed again.
#[tactic(auto, unfolding(crate::specs::Inner::Slopes::mean_round))]
fn mean_round(s: &[f32], t: Window, c: Neighbours) -> f32
    requires { Inside t (c.right + 1) (length s.now) }
    ensures { result ≡ mean_round s.now t c }
{
    let u = sum_round(s, t.up, c);
    let m = sum_round(s, t.at, c);
    let d = sum_round(s, t.down, c);
    mean3(u, m, d)
}

// A component's slope at a cell.
#[tactic(auto, using(crate::proofs::Statistics::all_less), unfolding(crate::specs::Inner::Slopes::slope_round))]
fn slope_round(s: &[f32], t: Stats, eps: f32, c: Neighbours) -> f32
    requires { AllInside t (c.right + 1) (length s.now) }
    ensures { result ≡ slope_round s.now t eps c }
{
    let mean = mean_round(s, t.c, c);
    slope_with(s, t, eps, mean, c.at)
}

// Inner: a component's slope at cell i of n, with the edge repeated where a neighbour is missing.
#[tactic(auto, using(crate::proofs::Statistics::all_less, crate::proofs::Statistics::at_round))]
pub fn slope_at(s: &[f32], t: Stats, eps: f32, n: usize, i: usize) -> f32
    requires { (i < n) × AllInside t n (length s.now) }
    ensures { result ≡ slope_at s.now t n eps i }
{
    let c = Neighbours {
        left: guided_window::prev(i),
        at: i,
        right: guided_window::next(i, n),
    };
    slope_round(s, t, eps, c)
}

// Inner: `slope_at` where cell i has a neighbour on both sides. No edge is looked at, so that blocks of it compile to wide loads.
#[tactic(auto, using(crate::proofs::Statistics::inside_round))]
pub fn slope_inside(s: &[f32], t: Stats, eps: f32, i: usize) -> f32
    requires { (0 < i) × AllInside t (i + 2) (length s.now) }
    ensures { result ≡ slope_inside s.now t eps i }
{
    let c = Neighbours {
        left: i - 1,
        at: i,
        right: i + 1,
    };
    slope_round(s, t, eps, c)
}

// Inner: the slopes at n cells one by one, to s from dst on.
#[tactic(auto, using(crate::proofs::Statistics::all_less, crate::proofs::Statistics::slopes_more), unfolding(laws::specs::Lists::put, crate::specs::Inner::Slopes::slope_run))]
pub fn slope_run(s: &mut [f32], t: Stats, eps: f32, n: usize, dst: usize)
    requires { AllInside t n (length s.old) × Clear t dst n × (dst + n ≤ length s.old) }
    ensures { s.new ≡ slope_run t eps dst n s.old }
{
    for i in 0..n {
        let v = slope_at(s, t, eps, n, i);
        s[dst + i] = v;
    }
}

// Inner: where the rows lie that a component's slopes of chroma row j are made of: those of rows j - 1, j and j + 1.
#[tactic(auto, unfolding(crate::specs::Inner::Slopes::stats_of))]
pub fn stats_at(layout: Layout, k: Chroma, j: usize) -> Stats
    requires { Sound layout × (j < layout.ch) }
    ensures { result ≡ stats_of layout k j }
{
    Stats {
        y: window_at(layout, Buffer::LumaSums, j),
        yy: window_at(layout, Buffer::SquareSums, j),
        c: window_at(layout, Buffer::Cells(k), j),
        yc: window_at(layout, Buffer::ProductSums(k), j),
    }
}
