// Refusal 21's test: whether two pictures differ where no change was announced.
//
// The bytes of a row are compared as slices, whole, and it is asked between rows whether any differed.
ghost use Rattle.std.specs.Prelude.{◌≡◌, ◌||◌, not, false, ◌+◌, ◌*◌, ◌≤◌, ◌<◌, eqb, length, get_or};
ghost use Rattle.image.specs.Inner.Tests.{Sound};
ghost use Rattle.image.specs.Picture.{short_plane, bad_planes, planes_seen};
ghost use Rattle.image.specs.Samples.{seen};
ghost use Rattle.image.specs.Limits.{any_of};
ghost use Rattle.image.specs.Rectangles.{past_cells};
ghost use Rattle.image.specs.Differences.{sample_differs, differs, differs_outside, other_change};
ghost use Rattle.image.specs.Inner.Differences.{differs_in, Reaches, InCells, trimmed_of, rows_above, rows_below, left_part, right_part};

use crate::layout::Layout;
use crate::plane::{Plane, Planes};
use crate::rectangle::Rectangle;

// Whether n bytes of p from `at` on and n of q from `to` on differ.
fn bytes_differ(p: &[u8], at: usize, q: &[u8], to: usize, n: usize) -> bool
    requires { (at + n ≤ length p.now) × (to + n ≤ length q.now) }
    ensures { result ≡ any_of n (λ k. not (eqb (get_or p.now (at + k) 0) (get_or q.now (to + k) 0))) }
{
    p[at..at + n] != q[to..to + n]
}

// Where row j of a rectangle of samples begins in a plane that it lies in.
fn row_start(layout: Layout, plane: Plane<'_>, block: Rectangle, j: usize) -> usize
    requires { Reaches layout block (seen plane) × (j < block.height) }
    ensures value { result ≡ (block.top + j) * plane.entry.stride + block.left * layout.sample_bytes }
    ensures room { result + block.width * layout.sample_bytes ≤ length plane.entry.bytes.now }
{
    (block.top + j) * plane.stride + block.left * layout.sample_bytes
}

// Whether two planes differ in row j of a rectangle of samples.
fn row_differs(layout: Layout, p: Plane<'_>, q: Plane<'_>, block: Rectangle, j: usize) -> bool
    requires { Sound layout
        × Reaches layout block (seen p)
        × Reaches layout block (seen q)
        × (j < block.height) }
    ensures { result ≡ any_of block.width (λ i. sample_differs layout
        (seen p.entry) (seen q.entry)
        (block.left + i) (block.top + j)) }
{
    let at = row_start(layout, p, block, j);
    let to = row_start(layout, q, block, j);
    bytes_differ(p.bytes, at, q.bytes, to, block.width * layout.sample_bytes)
}

// Whether two planes differ in a rectangle of samples.
fn block_differs(layout: Layout, p: Plane<'_>, q: Plane<'_>, block: Rectangle) -> bool
    requires { Sound layout
        × Reaches layout block (seen p)
        × Reaches layout block (seen q) }
    ensures { result ≡ differs_in layout block
        (seen p.entry) (seen q.entry) }
{
    for j in 0..block.height {
        if row_differs(layout, p, q, block, j) {
            return true;
        }
    }
    false
}

// Whether two luma planes that pass 7 differ.
fn luma_differs(layout: Layout, p: Plane<'_>, q: Plane<'_>) -> bool
    requires { Sound layout
        × (short_plane layout layout.w layout.h (seen p) ≡ false)
        × (short_plane layout layout.w layout.h (seen q) ≡ false) }
    ensures { result ≡ differs layout layout.w layout.h
        (seen p.entry) (seen q.entry) }
{
    let all = Rectangle {
        left: 0,
        top: 0,
        width: layout.w,
        height: layout.h,
    };
    block_differs(layout, p, q, all)
}

// An empty rectangle, wherever it lies, as the one at 0, so that no sum of its numbers can pass 2^64; any other as it is.
fn trimmed(cells: Rectangle) -> Rectangle
    ensures { result ≡ trimmed_of cells }
{
    if cells.is_empty() {
        return Rectangle {
            left: 0,
            top: 0,
            width: 0,
            height: 0,
        };
    }
    cells
}

// Whether two chroma planes differ in the rows above and below the rectangle.
fn rows_differ(layout: Layout, p: Plane<'_>, q: Plane<'_>, cells: Rectangle) -> bool
    requires { Sound layout
        × (short_plane layout layout.cw layout.ch (seen p) ≡ false)
        × (short_plane layout layout.cw layout.ch (seen q) ≡ false)
        × InCells layout cells }
    ensures { result ≡
        (differs_in layout (rows_above layout cells) (seen p.entry) (seen q.entry)
        || differs_in layout (rows_below layout cells) (seen p.entry) (seen q.entry)) }
{
    let end = cells.top + cells.height;
    let above = Rectangle {
        left: 0,
        top: 0,
        width: layout.cw,
        height: cells.top,
    };
    let below = Rectangle {
        left: 0,
        top: end,
        width: layout.cw,
        height: layout.ch - end,
    };
    let up = block_differs(layout, p, q, above);
    let down = block_differs(layout, p, q, below);
    up || down
}

// Whether two chroma planes differ in the rectangle's own rows, left or right of it.
fn sides_differ(layout: Layout, p: Plane<'_>, q: Plane<'_>, cells: Rectangle) -> bool
    requires { Sound layout
        × (short_plane layout layout.cw layout.ch (seen p) ≡ false)
        × (short_plane layout layout.cw layout.ch (seen q) ≡ false)
        × InCells layout cells }
    ensures { result ≡
        (differs_in layout (left_part cells) (seen p.entry) (seen q.entry)
        || differs_in layout (right_part layout cells) (seen p.entry) (seen q.entry)) }
{
    let end = cells.left + cells.width;
    let before = Rectangle {
        left: 0,
        top: cells.top,
        width: cells.left,
        height: cells.height,
    };
    let behind = Rectangle {
        left: end,
        top: cells.top,
        width: layout.cw - end,
        height: cells.height,
    };
    let left = block_differs(layout, p, q, before);
    let right = block_differs(layout, p, q, behind);
    left || right
}

// Whether two chroma planes that pass 7 differ outside a rectangle that passes 19.
fn cells_differ(layout: Layout, p: Plane<'_>, q: Plane<'_>, cells: Rectangle) -> bool
    requires { Sound layout
        × (short_plane layout layout.cw layout.ch (seen p) ≡ false)
        × (short_plane layout layout.cw layout.ch (seen q) ≡ false)
        × (past_cells layout cells ≡ false) }
    ensures { result ≡ differs_outside layout cells
        (seen p.entry) (seen q.entry) }
{
    let inner = trimmed(cells);
    let rows = rows_differ(layout, p, q, inner);
    let sides = sides_differ(layout, p, q, inner);
    rows || sides
}

// Inner: refusal 21's test, for two sets of planes that pass 7 and a rectangle that passes 19.
#[tactic(auto, unfolding(crate::specs::Differences::other_change, crate::specs::Picture::bad_planes))]
pub fn other_change(layout: Layout, old: Planes<'_>, new: Planes<'_>, cells: Rectangle) -> bool
    requires { Sound layout
        × (bad_planes layout (planes_seen old) ≡ false)
        × (bad_planes layout (planes_seen new) ≡ false)
        × (past_cells layout cells ≡ false) }
    ensures { result ≡ other_change layout cells (planes_seen old.entry) (planes_seen new.entry) }
{
    let luma = luma_differs(layout, old.y, new.y);
    let blue = cells_differ(layout, old.cb, new.cb, cells);
    let red = cells_differ(layout, old.cr, new.cr, cells);
    luma || blue || red
}
