// The pixels of cells that have both neighbours, at ratio 2: eight cells at a time, so that many pixels are computed at once.
ghost use Rattle.std.specs.Prelude.{◌≡◌, ℕ, ◌+◌, ◌*◌, ◌≤◌, ◌<◌, length, get_or};
ghost use Rattle.std.specs.Float.{nan};
ghost use Rattle.image.specs.Inner.Tests.{Sound};
ghost use Rattle.guided_pixels.specs.Inner.Lines.{line_run};

use crate::lines::Line;
use crate::pairs::in_columns;
use crate::rows::run;
use image::Layout;
use lanes::{Lanes, put_block};

// The values in the pixels of eight cells, from cell i + 1 on, at ratio 2.
fn block<L: Line>(layout: Layout, line: L, s: &[f32], i: usize) -> [f32; Lanes::PIXELS]
    requires { Sound layout × L.given line layout (length s.now) × (layout.rh ≡ 2) × (i + 10 ≤ layout.cw) × (2 * i + 18 ≤ layout.w) }
    ensures { (k : ℕ) → k < Lanes.PIXELS → get_or result k nan ≡ L.value line layout s.now (2 + 2 * i + k) }
{
    let p = line.pairs(layout, s, i);
    in_columns(p.left, p.right).to_array()
}

// The values in the pixels of eight cells, from cell i + 1 on, stored at their columns of the row at dst.
fn put_cells<L: Line>(layout: Layout, line: L, s: &mut [f32], dst: usize, i: usize)
    requires { Sound layout × L.given line layout (length s.old) × (dst + layout.w ≤ L.low line layout)
        × (layout.rh ≡ 2) × (i + 10 ≤ layout.cw) × (2 * i + 18 ≤ layout.w) }
    ensures { s.new ≡ line_run (L.value line layout) dst (2 + 2 * i) 16 s.old }
{
    let pixels = block(layout, line, s, i);
    put_block(s, dst + 2 + 2 * i, pixels);
}

// Inner: the values in the pixels of n cells, from cell 1 on, at ratio 2: blocks of eight cells, and where cells are left, one more that ends
// with them and overlaps the one before; fewer than eight pixel by pixel.
#[tactic(auto, unfolding(laws::specs::Lists::put, crate::specs::Inner::Lines::line_run))]
pub fn twos<L: Line>(layout: Layout, line: L, s: &mut [f32], dst: usize, n: usize)
    requires { Sound layout × L.given line layout (length s.old) × (dst + layout.w ≤ L.low line layout)
        × (layout.rh ≡ 2) × (n + 2 ≤ layout.cw) × (2 + 2 * n ≤ layout.w) }
    ensures { s.new ≡ line_run (L.value line layout) dst 2 (2 * n) s.old }
{
    if n < Lanes::CELLS {
        run(layout, line, s, dst, 2, 2 * n);
        return;
    }
    for b in 0..n / Lanes::CELLS {
        put_cells(layout, line, s, dst, b * Lanes::CELLS);
    }
    if n % Lanes::CELLS == 0 {
        return;
    }
    put_cells(layout, line, s, dst, n - Lanes::CELLS);
}
