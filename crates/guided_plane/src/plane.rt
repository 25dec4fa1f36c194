// A whole chroma plane, guided by luma: its checks, a row of it, the loop, and the public call.
ghost use Rattle.std.specs.Prelude.{◌≡◌, false, [], ◌∷◌, ◌*◌, ◌≤◌, ◌<◌, length};
ghost use Rattle.laws.specs.Refusals.{first};
ghost use Rattle.image.specs.declared.chroma.Chroma.TheVariants.{Cb};
ghost use Rattle.image.specs.Scratch.{scratch_need};
ghost use Rattle.linear.specs.Inner.Stores.{store_run};
ghost use Rattle.guided_window.specs.Inner.Lent.{Lent};
ghost use Rattle.guided_rows.specs.CatchingUp.{guided_step, guided_rows};
ghost use Rattle.guided_plane.specs.Plane.{planes_with, picture_with, short_pair, above_pair, guided_tests, guided_plane, GuidedGiven};
ghost use Rattle.image.specs.Samples.{seen};
ghost use Rattle.image.specs.Inner.Tests.{Sound};

use guided_rows::guided_step;
use image::{Components, Layout, Plane, Planes};
use laws::Refusal;

// Refusal 7's test for luma and the one chroma plane.
#[tactic(auto, unfolding(crate::specs::Plane::short_pair))]
fn short_pair(layout: Layout, y: Plane<'_>, c: Plane<'_>) -> bool
    ensures { result ≡ short_pair layout (seen y.entry) (seen c.entry) }
{
    y.is_short(layout, layout.w, layout.h) || c.is_short(layout, layout.cw, layout.ch)
}

// Refusal 17's test for the two, neither of which is short.
#[tactic(auto, unfolding(crate::specs::Plane::above_pair, crate::specs::Plane::short_pair))]
fn above_pair(layout: Layout, y: Plane<'_>, c: Plane<'_>) -> bool
    requires { Sound layout × (short_pair layout (seen y) (seen c) ≡ false) }
    ensures { result ≡ above_pair layout (seen y.entry) (seen c.entry) }
{
    image::plane_above(layout, y, layout.w, layout.h)
        || image::plane_above(layout, c, layout.cw, layout.ch)
}

// The lowest refusal of `guided_plane` that applies. `space` and `room` are the lengths of scratch and output; nothing is written.
#[tactic(auto, unfolding(laws::specs::Refusals::first, image::specs::Tests::tests_for, crate::specs::Plane::guided_tests))]
fn plane_answer(
    layout: Layout,
    y: Plane<'_>,
    c: Plane<'_>,
    space: usize,
    room: usize,
) -> Result<(), Refusal>
    ensures { result ≡ first (guided_tests layout (seen y.entry) (seen c.entry) space room) }
{
    layout.answer(false)?;
    laws::first([
        (layout.bad_siting(), Refusal::NotCentred),
        (short_pair(layout, y, c), Refusal::BadPlane),
    ])?;
    let short = laws::product_passes(layout.w, layout.h, room);
    laws::first([
        (above_pair(layout, y, c), Refusal::AboveMaxval),
        (image::short_scratch(layout, space), Refusal::ShortScratch),
        (short, Refusal::ShortOutput),
    ])
}

// Makes one row: its steps over scratch, then the finished row rounded into out. The chroma plane is lent as both components, and only
// Cb is asked for.
fn plane_row(layout: Layout, y: Plane<'_>, c: Plane<'_>, row: usize, s: &mut [f32], out: &mut [u16])
    requires lent { Lent layout (planes_with (seen y) (seen c)) Components.CbAlone }
    requires row_lt_h { (row < layout.h) × (scratch_need layout ≤ length s.old) × (layout.w * layout.h ≤ length out.old) }
    ensures s_after { s.new ≡ guided_step
        (picture_with layout (seen y.entry) (seen c.entry))
        (Cb ∷ []) 0 row s.old }
    ensures out_after { out.new ≡ store_run
        (guided_step (picture_with layout (seen y.entry) (seen c.entry)) (Cb ∷ []) 0 row s.old)
        0 layout.w layout.maxval (row * layout.w) out.old }
{
    let planes = Planes { y, cb: c, cr: c };
    guided_step(layout, planes, Components::CbAlone, 0, row, s);
    linear::store_row(s, 0, layout.w, layout.maxval, out, row * layout.w);
}

// Makes every row of the plane in turn.
fn plane_rows(layout: Layout, y: Plane<'_>, c: Plane<'_>, s: &mut [f32], out: &mut [u16])
    requires lent { Lent layout (planes_with (seen y) (seen c)) Components.CbAlone }
    requires layout_in_bounds { (scratch_need layout ≤ length s.old) × (layout.w * layout.h ≤ length out.old) }
    ensures out_after { out.new ≡ guided_plane
        (picture_with layout (seen y.entry) (seen c.entry))
        out.old }
    ensures s_after { s.new ≡ guided_rows
        (picture_with layout (seen y.entry) (seen c.entry))
        (Cb ∷ []) 0 layout.h s.old }
{
    for row in 0..layout.h {
        plane_row(layout, y, c, row, s, out);
    }
}

// One whole chroma plane, guided by luma: w by h values, rounded and limited to 0..=maxval, into out. Refusals 2, 3, 4, 18, 5, 16, 7,
// 17, 9 and 10. Scratch afterwards is `guided_rows` of guided_rows' specs/CatchingUp.
#[tactic(auto, using(crate::proofs::PlaneRows::ready))]
pub fn guided_plane(
    layout: Layout,
    y: Plane<'_>,
    c: Plane<'_>,
    s: &mut [f32],
    out: &mut [u16],
) -> Result<(), Refusal>
    ensures { GuidedGiven layout (seen y.entry) (seen c.entry) s.old out.old result s.new out.new }
{
    plane_answer(layout, y, c, s.len(), out.len())?;
    plane_rows(layout, y, c, s, out);
    Ok(())
}
