// Cells lerped across: by one phase, by all phases of a cell, and by eight pairs of pixels at ratio 2.
ghost use Rattle.std.specs.Prelude.{◌≡◌, cond, ℕ, ◌+◌, ◌-◌, ◌*◌, ◌≤◌, ◌<◌, Float, length, get_or};
ghost use Rattle.std.specs.Float.{nan};
ghost use Rattle.image.specs.Inner.Tests.{Sound};
ghost use Rattle.image.specs.Scratch.{cell_at};
ghost use Rattle.guided.specs.Guided.{across_to};
ghost use Rattle.taps.specs.Taps.{lerp_of, phases_of};
ghost use Rattle.guided_pixels.specs.Inner.Across.{phased, pairs_of};
ghost use Rattle.laws.specs.Lists.{table};

use image::Layout;
use lanes::load;
use std::simd::{f32x8, f32x16};
use taps::Phase;

// Cell i of the cw cells at src, lerped across by a phase: towards the left neighbour or the right one, edges repeated.
#[tactic(auto, unfolding(crate::specs::Inner::Across::phased))]
fn across_at(s: &[f32], src: usize, cw: usize, p: Phase, i: usize) -> f32
    requires { (i < cw) × (src + cw ≤ length s.now) }
    ensures { result ≡ phased (cell_at s.now src) cw p i }
{
    if p.left {
        let l = guided_window::prev(i);
        return taps::lerp(s[src + l], s[src + i], p.f);
    }
    let r = guided_window::next(i, cw);
    taps::lerp(s[src + i], s[src + r], p.f)
}

// Inner: what the cells at src lerp to in column x, by the pixel's phase within its cell.
#[tactic(auto, using(crate::proofs::Lerps::across_is, guided::proofs::Taken::own_column))]
pub fn across_pixel(layout: Layout, s: &[f32], src: usize, x: usize) -> f32
    requires { Sound layout × (x < layout.w) × (src + layout.cw ≤ length s.now) }
    ensures { result ≡ across_to layout (cell_at s.now src) x }
{
    let p = taps::phase_of(layout.rh, x % layout.rh);
    across_at(s, src, layout.cw, p, x / layout.rh)
}

// The first of the two cells that a phase of cell i lies between, where no edge is met.
fn start_of(p: Phase, i: usize) -> usize
    requires { 0 < i }
    ensures { (result ≡ cond p.left (i - 1) i) × (result ≤ i) }
{
    if p.left { i - 1 } else { i }
}

// Cell i of the cells at src, which has both neighbours, lerped across by a phase: no edge is looked at.
fn between(s: &[f32], src: usize, p: Phase, i: usize) -> f32
    requires { (0 < i) × (src + i + 2 ≤ length s.now) }
    ensures { (n : ℕ) → i + 1 < n → result ≡ phased (cell_at s.now src) n p i }
{
    let a = start_of(p, i);
    taps::lerp(s[src + a], s[src + (a + 1)], p.f)
}

// Inner: cell i of the cells at src, which has both neighbours, lerped across in each of its pixels. An array has four places, and what
// stands past the ratio is no pixel's.
pub fn cell_at(layout: Layout, s: &[f32], src: usize, phases: [Phase; 4], i: usize) -> [f32; 4]
    requires { (phases ≡ phases_of layout.rh) × (layout.rh ≤ 4)
        × (0 < i) × (i + 1 < layout.cw) × (src + layout.cw ≤ length s.now) }
    ensures { (k : ℕ) → k < layout.rh
        → get_or result k nan ≡ across_to layout (cell_at s.now src) (i * layout.rh + k) }
{
    [
        between(s, src, phases[0], i),
        between(s, src, phases[1], i),
        between(s, src, phases[2], i),
        between(s, src, phases[3], i),
    ]
}

// The pixels of eight cells at ratio 2: the left one of each cell, and the right one, each in its lane.
#[derive(Clone, Copy)]
pub struct Pairs {
    pub left: f32x8,
    pub right: f32x8,
}

// `taps::lerp` of each two lanes.
fn lerps(a: f32x8, b: f32x8, f: f32) -> f32x8
    ensures { (g h : ℕ → Float) → a ≡ table 8 g → b ≡ table 8 h → result ≡ table 8 (λ k. lerp_of (g k) (h k) f) }
{
    a + f32x8::splat(f) * (b - a)
}

// Inner: eight cells of the row at src, from cell i + 1 on, which have both neighbours, lerped across at ratio 2, whose fractions are 3/4 from
// the left neighbour and 1/4 to the right one.
pub fn pairs_at(s: &[f32], src: usize, i: usize) -> Pairs
    requires { src + i + 10 ≤ length s.now }
    ensures { result ≡ pairs_of (cell_at s.now src) i }
{
    let a = load(s, src + i);
    let b = load(s, src + (i + 1));
    let c = load(s, src + (i + 2));
    Pairs {
        left: lerps(a, b, 0.75),
        right: lerps(b, c, 0.25),
    }
}

// Inner: of sixteen values, each in its column, those of the left pixels.
pub fn lefts(v: f32x16) -> f32x8
    ensures { (f : ℕ → Float) → v ≡ table 16 f → result ≡ table 8 (λ k. f (2 * k)) }
{
    v.swizzle([0, 2, 4, 6, 8, 10, 12, 14])
}

// Inner: and those of the right ones.
pub fn rights(v: f32x16) -> f32x8
    ensures { (f : ℕ → Float) → v ≡ table 16 f → result ≡ table 8 (λ k. f (2 * k + 1)) }
{
    v.swizzle([1, 3, 5, 7, 9, 11, 13, 15])
}

// Inner: the left and the right pixels' values, each in its column.
pub fn in_columns(left: f32x8, right: f32x8) -> f32x16
    ensures { (f : ℕ → Float) → left ≡ table 8 (λ k. f (2 * k)) → right ≡ table 8 (λ k. f (2 * k + 1)) → result ≡ table 16 f }
{
    left.shuffle(
        right,
        [0, 8, 1, 9, 2, 10, 3, 11, 4, 12, 5, 13, 6, 14, 7, 15],
    )
}
