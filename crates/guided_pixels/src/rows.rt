// The loops over a row of pixels: pixel by pixel, cell by cell at any ratio, and at ratio 1.
ghost use Rattle.std.specs.Prelude.{◌≡◌, ◌+◌, ◌*◌, ◌≤◌, ◌<◌, length};
ghost use Rattle.image.specs.Inner.Tests.{Sound};
ghost use Rattle.taps.specs.Taps.{phases_of};
ghost use Rattle.guided_pixels.specs.Inner.Lines.{line_run};

use crate::lines::Line;
use crate::twos::twos;
use image::Layout;
use taps::Phase;

// Inner: the values in n columns, from column `from` on, to s from dst + from on, each by its own phase: for the first and the last cell.
#[tactic(auto, unfolding(laws::specs::Lists::put, crate::specs::Inner::Lines::line_run))]
pub fn run<L: Line>(layout: Layout, line: L, s: &mut [f32], dst: usize, from: usize, n: usize)
    requires { Sound layout × L.given line layout (length s.old) × (dst + layout.w ≤ L.low line layout) × (from + n ≤ layout.w) }
    ensures { s.new ≡ line_run (L.value line layout) dst from n s.old }
{
    for i in 0..n {
        let v = line.pixel(layout, s, from + i);
        s[dst + from + i] = v;
    }
}

// The values in n cells, from cell 1 on, at ratio 1, where each cell is a pixel.
#[tactic(auto, unfolding(laws::specs::Lists::put, crate::specs::Inner::Lines::line_run))]
fn ones<L: Line>(layout: Layout, line: L, s: &mut [f32], dst: usize, n: usize)
    requires { Sound layout × L.given line layout (length s.old) × (dst + layout.w ≤ L.low line layout)
        × (layout.rh ≡ 1) × (n + 2 ≤ layout.cw) × (1 + n ≤ layout.w) }
    ensures { s.new ≡ line_run (L.value line layout) dst 1 n s.old }
{
    for i in 0..n {
        let v = line.one(layout, s, 1 + i);
        s[dst + 1 + i] = v;
    }
}

// The values in the pixels of cell i, which has both neighbours: no edge is met.
#[tactic(auto, unfolding(laws::specs::Lists::put, crate::specs::Inner::Lines::line_run))]
fn cell<L: Line>(layout: Layout, line: L, phases: [Phase; 4], s: &mut [f32], dst: usize, i: usize)
    requires { Sound layout × L.given line layout (length s.old) × (dst + layout.w ≤ L.low line layout)
        × (phases ≡ phases_of layout.rh) × (0 < i) × (i + 1 < layout.cw) × (i * layout.rh + layout.rh ≤ layout.w) }
    ensures { s.new ≡ line_run (L.value line layout) dst (i * layout.rh) layout.rh s.old }
{
    let rh = layout.rh;
    let x = i * rh;
    let lerped = line.lerp(layout, phases, s, i);
    for k in 0..rh {
        let v = line.in_cell(layout, s, &lerped, i, k);
        s[dst + x + k] = v;
    }
}

// The values in the pixels of n cells, from cell 1 on, cell by cell at any ratio.
fn each<L: Line>(layout: Layout, line: L, s: &mut [f32], dst: usize, n: usize)
    requires { Sound layout × L.given line layout (length s.old) × (dst + layout.w ≤ L.low line layout)
        × (n + 2 ≤ layout.cw) × (layout.rh + n * layout.rh ≤ layout.w) }
    ensures { s.new ≡ line_run (L.value line layout) dst layout.rh (n * layout.rh) s.old }
{
    let phases = taps::phases_of(layout.rh);
    for i in 0..n {
        cell(layout, line, phases, s, dst, i + 1);
    }
}

// The values in the pixels of n cells, from cell 1 on: the loops of ratios 1 and 2 are faster than the one of any ratio.
fn inner<L: Line>(layout: Layout, line: L, s: &mut [f32], dst: usize, n: usize)
    requires { Sound layout × L.given line layout (length s.old) × (dst + layout.w ≤ L.low line layout)
        × (n + 2 ≤ layout.cw) × (layout.rh + n * layout.rh ≤ layout.w) }
    ensures { s.new ≡ line_run (L.value line layout) dst layout.rh (n * layout.rh) s.old }
{
    match layout.rh {
        1 => ones(layout, line, s, dst, n),
        2 => twos(layout, line, s, dst, n),
        _ => each(layout, line, s, dst, n),
    }
}

// Inner: the values in all columns: those of the first cell, of the inner cells, and of the last cell that lie inside the picture.
#[tactic(auto, using(crate::proofs::Phases::cells_inside))]
pub fn line_row<L: Line>(layout: Layout, line: L, s: &mut [f32], dst: usize)
    requires { Sound layout × L.given line layout (length s.old) × (dst + layout.w ≤ L.low line layout) }
    ensures { s.new ≡ line_run (L.value line layout) dst 0 layout.w s.old }
{
    let w = layout.w;
    let rh = layout.rh;
    if layout.cw < 2 {
        run(layout, line, s, dst, 0, w);
        return;
    }
    let n = layout.cw - 2;
    let m = rh + n * rh;
    run(layout, line, s, dst, 0, rh);
    inner(layout, line, s, dst, n);
    run(layout, line, s, dst, m, w - m);
}
