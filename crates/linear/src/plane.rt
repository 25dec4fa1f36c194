// Linear reconstruction: one row in scratch, and the public call for a whole chroma plane.
ghost use Rattle.std.specs.Prelude.{◌≡◌, ◌+◌, ◌*◌, ◌≤◌, ◌<◌, length};
ghost use Rattle.laws.specs.Refusals.{first};
ghost use Rattle.image.specs.Samples.{seen};
ghost use Rattle.linear.specs.Linear.{linear_tests, linear_row, linear_plane, linear_scratch, LinearGiven};
ghost use Rattle.linear.specs.Inner.Linear.{Ready};

use crate::across::across_row;
use crate::down::down_row;
use crate::rounded::store_row;
use crate::rows::Row;
use image::{Layout, Plane};
use laws::Refusal;
use taps::tap_at;

// Inner: row y of a chroma plane, to scratch from dst on. The cells are lerped down into a buffer behind room for two finished rows (Cb's
// and Cr's, as fill has them), and from there across.
pub fn linear_row(layout: Layout, plane: Plane<'_>, y: usize, s: &mut [f32], dst: usize)
    requires ready { Ready layout (seen plane) (length s.old) }
    requires y_lt_h { (y < layout.h) × (dst ≤ layout.w) }
    ensures { s.new ≡ linear_row layout (seen plane.entry) dst y s.old }
{
    let t = tap_at(layout.down, layout.rv, layout.ch, y);
    let a = t.i0 * plane.stride;
    let b = t.i1 * plane.stride;
    let cells = 2 * layout.w;
    down_row(
        plane.bytes,
        layout.sample_bytes,
        a,
        b,
        t.f,
        layout.cw,
        s,
        cells,
    );
    let row = Row {
        axis: layout.across,
        r: layout.rh,
        cw: layout.cw,
        src: cells,
        dst,
        w: layout.w,
    };
    across_row(row, s);
}

// Inner: the lowest refusal of `linear_plane` that applies. `space` and `room` are the lengths of scratch and output; nothing is written.
#[tactic(auto, unfolding(laws::specs::Refusals::first, image::specs::Tests::tests_for, crate::specs::Linear::linear_tests))]
pub fn linear_answer(
    layout: Layout,
    plane: Plane<'_>,
    space: usize,
    room: usize,
) -> Result<(), Refusal>
    ensures { result ≡ first (linear_tests layout (seen plane.entry) space room) }
{
    layout.answer_for(false, false)?;
    laws::first([(
        plane.is_short(layout, layout.cw, layout.ch),
        Refusal::BadPlane,
    )])?;
    let above = image::plane_above(layout, plane, layout.cw, layout.ch);
    let short = laws::product_passes(layout.w, layout.h, room);
    laws::first([
        (above, Refusal::AboveMaxval),
        (image::short_scratch(layout, space), Refusal::ShortScratch),
        (short, Refusal::ShortOutput),
    ])
}

// Every row of the plane, each lerped into scratch at 0 and then rounded into out.
#[tactic(auto, using(laws::proofs::Lists::rows_none, crate::proofs::LinearRows::scratch_none), unfolding(crate::specs::Linear::linear_plane))]
fn linear_rows(layout: Layout, plane: Plane<'_>, s: &mut [f32], out: &mut [u16])
    requires ready { Ready layout (seen plane) (length s.old) }
    requires h_in_bounds { layout.w * layout.h ≤ length out.old }
    ensures out_after { out.new ≡ linear_plane layout (seen plane.entry) out.old }
    ensures s_after { s.new ≡ linear_scratch layout (seen plane.entry) layout.h s.old }
{
    let w = layout.w;
    let h = layout.h;
    for y in 0..h {
        linear_row(layout, plane, y, s, 0);
        store_row(s, 0, w, layout.maxval, out, y * w);
    }
}

// One whole chroma plane by linear interpolation: w by h values, rounded and limited to 0..=maxval, into out. It answers refusals 2, 3, 4, 18,
// 5, 7, 17, 9 and 10. What scratch holds after an accepted call is `linear_scratch` of specs/Linear.
#[tactic(auto, using(crate::proofs::LinearRows::ready))]
pub fn linear_plane(
    layout: Layout,
    plane: Plane<'_>,
    s: &mut [f32],
    out: &mut [u16],
) -> Result<(), Refusal>
    ensures { LinearGiven
        layout (seen plane.entry) s.old out.old
        result s.new out.new }
{
    linear_answer(layout, plane, s.len(), out.len())?;
    linear_rows(layout, plane, s, out);
    Ok(())
}
