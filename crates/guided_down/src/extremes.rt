// The least and the greatest sample of the three by three cells round each cell, edges repeated.
//
// They are found among whole samples, before any is made a float: both orders agree, and of narrow numbers more are compared at a time.
ghost use Rattle.std.specs.Prelude.{◌≡◌, ◌+◌, ◌-◌, ◌≤◌, ◌<◌, length};
ghost use Rattle.image.specs.Samples.{Plane, sample_at, seen};
ghost use Rattle.guided.specs.Events.{three_n};
ghost use Rattle.guided_window.specs.Inner.Lent.{ChromaCells};
ghost use Rattle.guided_down.specs.Inner.Extremes.{extreme_run, extreme_row, whole_extreme};
ghost use Rattle.guided_down.specs.Inner.Nines.{whole_op};

use crate::nines::{byte_run, nine_cells, pick3};
use crate::picks::Pick;
use fround::whole;
use guided_window::{Window, next, prev, whole_at};
use image::{Layout, Plane};

// The least, or the greatest, of cell i of row r and its two neighbours across.
#[tactic(auto, using(crate::proofs::NineSamples::three_of))]
fn across(layout: Layout, plane: Plane<'_>, pick: Pick, r: usize, i: usize) -> u16
    requires { ChromaCells layout (seen plane) × (i < layout.cw) × (r < layout.ch) }
    ensures { result ≡ three_n (whole_op pick) layout.cw
        (λ q. sample_at layout.sample_bytes (seen plane.entry) r q)
        i }
{
    let w = layout.cw;
    let h = layout.ch;
    let a = whole_at(layout, plane, w, h, prev(i), r);
    let b = whole_at(layout, plane, w, h, i, r);
    let c = whole_at(layout, plane, w, h, next(i, w), r);
    pick3(pick, a, b, c)
}

// The least, or the greatest, of the nine samples round cell i of row j: of three rows' least or greatest in turn.
#[tactic(auto, using(crate::proofs::NineSamples::three_of), unfolding(crate::specs::Inner::Extremes::whole_extreme))]
fn extreme_at(layout: Layout, plane: Plane<'_>, pick: Pick, j: usize, i: usize) -> u16
    requires { ChromaCells layout (seen plane) × (i < layout.cw) × (j < layout.ch) }
    ensures { result ≡ whole_extreme layout pick
        (sample_at layout.sample_bytes (seen plane.entry))
        j i }
{
    let a = across(layout, plane, pick, prev(j), i);
    let b = across(layout, plane, pick, j, i);
    let d = next(j, layout.ch);
    let c = across(layout, plane, pick, d, i);
    pick3(pick, a, b, c)
}

// The extremes round n cells of chroma row j, from cell `from` on, one by one with edges repeated.
#[tactic(auto, unfolding(laws::specs::Lists::put, crate::specs::Inner::Extremes::extreme_run))]
fn extreme_run(
    layout: Layout,
    plane: Plane<'_>,
    pick: Pick,
    j: usize,
    s: &mut [f32],
    dst: usize,
    from: usize,
    n: usize,
)
    requires chroma_cells { ChromaCells layout (seen plane) × (j < layout.ch) }
    requires n_bound { (from + n ≤ layout.cw) × (dst + layout.cw ≤ length s.old) }
    ensures { s.new ≡ extreme_run layout (seen plane.entry) pick j dst from n s.old }
{
    for i in 0..n {
        s[dst + from + i] = whole(u32::from(extreme_at(layout, plane, pick, j, from + i)));
    }
}

// The extremes round the cells of chroma row j that have neighbours on both sides, by the loop for their number of bytes.
#[tactic(auto, using(guided_across::proofs::Areas::row_within))]
fn extreme_inner(layout: Layout, plane: Plane<'_>, pick: Pick, j: usize, s: &mut [f32], dst: usize)
    requires { ChromaCells layout (seen plane)
        × (j < layout.ch) × (2 ≤ layout.cw) × (dst + layout.cw ≤ length s.old) }
    ensures { s.new ≡ extreme_run layout (seen plane.entry) pick j dst 1 (layout.cw - 2) s.old }
{
    let n = layout.cw - 2;
    let t = Window {
        up: prev(j) * plane.stride,
        at: j * plane.stride,
        down: next(j, layout.ch) * plane.stride,
    };
    if layout.sample_bytes == 1 {
        byte_run(plane.bytes, pick, t, n, s, dst + 1);
        return;
    }
    nine_cells::<u16>(plane.bytes, pick, t, n, s, dst + 1);
}

// Inner: the least, or the greatest, sample round each cell of chroma row j, to s from dst on: the edges one by one, the rest by blocks.
#[tactic(auto, using(crate::proofs::Wholes::run_whole, crate::proofs::Wholes::run_parts))]
pub fn extreme_row(
    layout: Layout,
    plane: Plane<'_>,
    pick: Pick,
    j: usize,
    s: &mut [f32],
    dst: usize,
)
    requires { ChromaCells layout (seen plane) × (j < layout.ch) × (dst + layout.cw ≤ length s.old) }
    ensures { s.new ≡ extreme_row layout (seen plane.entry) pick j dst s.old }
{
    let n = layout.cw;
    if n < 2 {
        extreme_run(layout, plane, pick, j, s, dst, 0, n);
        return;
    }
    extreme_run(layout, plane, pick, j, s, dst, 0, 1);
    extreme_inner(layout, plane, pick, j, s, dst);
    extreme_run(layout, plane, pick, j, s, dst, n - 1, 1);
}
