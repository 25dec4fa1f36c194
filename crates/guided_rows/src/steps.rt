// Catching up: the chroma rows that a picture row needs, summed across and finished in turn.
ghost use Rattle.std.specs.Prelude.{◌≡◌, ◌+◌, ◌-◌, ◌≤◌, ◌<◌, length};
ghost use Rattle.image.specs.Inner.Tests.{Sound};
ghost use Rattle.image.specs.Picture.{picture_of, planes_seen};
ghost use Rattle.image.specs.Scratch.{scratch_need};
ghost use Rattle.guided.specs.Calls.{done_f};
ghost use Rattle.guided.specs.Scratch.{across_rows, catch_up, row_steps};
ghost use Rattle.guided_window.specs.Inner.Lent.{Lent, components_of};
ghost use Rattle.guided_rows.specs.CatchingUp.{before_h, before_f, guided_step};

use guided_down::finish;
use guided_pixels::guided_row;
use image::{Components, Layout, Planes};
use reader_state::Counters;

// Sums the chroma rows from, .. to - 1 across into the window.
fn across_rows(
    layout: Layout,
    planes: Planes<'_>,
    components: Components,
    from: usize,
    to: usize,
    s: &mut [f32],
)
    requires lent { Lent layout (planes_seen planes) components }
    requires to_le_ch { (to ≤ layout.ch) × (scratch_need layout ≤ length s.old) }
    ensures { s.new ≡ across_rows
        (picture_of layout (planes_seen planes.entry))
        (components_of components) from (to - from) s.old }
{
    for j in from..to {
        guided_across::horizontal(layout, planes, components, j, s);
    }
}

// Inner: finishes the chroma rows f, .. to - 1, h being the next row to sum across. Before a row is finished the rows round it are
// summed, since its slopes look at all three.
pub fn catch_up(
    layout: Layout,
    planes: Planes<'_>,
    components: Components,
    h: usize,
    f: usize,
    to: usize,
    s: &mut [f32],
)
    requires lent { Lent layout (planes_seen planes) components }
    requires to_le_ch { (to ≤ layout.ch) × (scratch_need layout ≤ length s.old) }
    ensures { s.new ≡ catch_up
        (picture_of layout (planes_seen planes.entry))
        (components_of components) h f (to - f) s.old }
{
    let mut h_next = h;
    for j in f..to {
        let end = (j + 2).min(layout.ch);
        across_rows(layout, planes, components, h_next, end, s);
        finish(layout, planes.cb, planes.cr, components, j, s);
        h_next = h_next.max(end);
    }
}

// Inner: all the steps of a picture row over scratch, h and f being the next chroma rows to sum across and to finish.
pub fn row_steps(
    layout: Layout,
    planes: Planes<'_>,
    components: Components,
    h: usize,
    f: usize,
    row: usize,
    s: &mut [f32],
)
    requires lent { Lent layout (planes_seen planes) components }
    requires row_lt_h { (row < layout.h) × (scratch_need layout ≤ length s.old) }
    ensures { s.new ≡ row_steps
        (picture_of layout (planes_seen planes.entry))
        (components_of components) h f (done_f layout row - f) row s.old }
{
    let done = reader_state::done_counters(layout, row);
    catch_up(layout, planes, components, h, f, done.f_next, s);
    guided_row(layout, planes.y, components, row, s);
}

// The counters before row first + n of a run of rows that begins at first: those that seek leaves at first, then those that the row
// before leaves.
fn counters_before(layout: Layout, first: usize, n: usize) -> Counters
    requires sound { Sound layout }
    requires n_bound { first + n < layout.h }
    ensures { (result.h_next ≡ before_h layout first n) × (result.f_next ≡ before_f layout first n) }
{
    if n == 0 {
        return reader_state::fresh_counters(layout, first);
    }
    reader_state::done_counters(layout, first + (n - 1))
}

// Inner: row first + n of a run of rows that begins at first, over the scratch that the rows before it left. A whole plane and a
// fill read their rows so: they keep no reader, since the counters follow from the row number.
pub fn guided_step(
    layout: Layout,
    planes: Planes<'_>,
    components: Components,
    first: usize,
    n: usize,
    s: &mut [f32],
)
    requires lent { Lent layout (planes_seen planes) components }
    requires n_bound { (first + n < layout.h) × (scratch_need layout ≤ length s.old) }
    ensures { s.new ≡ guided_step
        (picture_of layout (planes_seen planes.entry))
        (components_of components) first n s.old }
{
    let k = counters_before(layout, first, n);
    row_steps(layout, planes, components, k.h_next, k.f_next, first + n, s);
}
