// The rows of cells of one picture row: rows of the window lerped down by the row's tap.
ghost use Rattle.std.specs.Prelude.{◌≡◌, ◌+◌, ◌≤◌, ◌<◌, length};
ghost use Rattle.image.specs.Inner.Tests.{Sound};
ghost use Rattle.image.specs.Scratch.{scratch_need};
ghost use Rattle.guided_pixels.specs.Inner.Columns.{num_row, lerp_run, ColumnGiven, down_row};

use guided_window::{Buffer, Window, row_at};
use image::Layout;

// The two rows of cells. Luma's samples are dead once the detail is made, and a component's once its finished row is, so that one row serves
// luma's and then those of each component.
#[derive(Clone, Copy)]
pub enum RowOfCells {
    Samples,
    Slopes,
}

impl RowOfCells {
    fn number(self) -> usize
        ensures { (result ≡ num_row self) × (result ≤ 1) }
    {
        match self {
            RowOfCells::Samples => 0,
            RowOfCells::Slopes => 1,
        }
    }
}

// The n cells at a and the n cells at b, lerped by f, to s from dst on.
#[tactic(auto, using(crate::proofs::DownLerps::lerps_more), unfolding(laws::specs::Lists::put, crate::specs::Inner::Columns::lerp_run))]
fn lerp_row(s: &mut [f32], a: usize, b: usize, f: f32, n: usize, dst: usize)
    requires { (a + n ≤ dst) × (b + n ≤ dst) × (dst + n ≤ length s.old) }
    ensures { s.new ≡ lerp_run a b f n dst s.old }
{
    for i in 0..n {
        s[dst + i] = taps::lerp(s[a + i], s[b + i], f);
    }
}

// Inner: where a row of cells of a picture row begins in scratch: they lie behind the window.
#[tactic(auto, unfolding(guided::specs::Scratch::column_at))]
pub fn column_at(layout: Layout, row: RowOfCells) -> usize
    requires { Sound layout }
    ensures { ColumnGiven layout (num_row row) result }
{
    guided_window::buffer_at(layout, Window::BUFFERS + row.number())
}

// Inner: a buffer of the window, lerped down for picture row y into a row of cells. It is made part of its callers for the same reason as
// `row_at`.
#[inline(always)]
#[tactic(auto, using(crate::proofs::DownLerps::down_ready, crate::proofs::DownLerps::down_is))]
pub fn down_row(layout: Layout, buffer: Buffer, row: RowOfCells, y: usize, s: &mut [f32])
    requires { Sound layout × (y < layout.h) × (scratch_need layout ≤ length s.old) }
    ensures { s.new ≡ down_row layout buffer (num_row row) y s.old }
{
    let t = taps::plain_tap(layout.rv, layout.ch, y);
    let a = row_at(layout, buffer, t.i0);
    let b = row_at(layout, buffer, t.i1);
    let dst = column_at(layout, row);
    lerp_row(s, a, b, t.f, layout.cw, dst);
}
