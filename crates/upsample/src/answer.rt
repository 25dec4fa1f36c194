// Whether a call of `triangular_plane` is turned down, and why. Nothing is written here.
ghost use Rattle.std.specs.Prelude.{◌≡◌};
ghost use Rattle.laws.specs.Refusals.{first};
ghost use Rattle.image.specs.Samples.{seen};
ghost use Rattle.upsample.specs.Triangular.{bad_triangular, ratios, triangular_tests};

use image::{Layout, Plane};
use laws::Refusal;

// Whether the layout's ratios are rh across and rv down.
fn ratios_are(layout: Layout, rh: usize, rv: usize) -> bool
    ensures { result ≡ ratios layout rh rv }
{
    layout.rh == rh && layout.rv == rv
}

// Refusal 6's test: ratios other than (2,1), (1,2) and (2,2), or two cells or fewer across at rh 2.
#[tactic(auto, unfolding(crate::specs::Triangular::bad_triangular))]
fn bad_triangular(layout: Layout) -> bool
    ensures { result ≡ bad_triangular layout }
{
    let known = ratios_are(layout, 2, 1) || ratios_are(layout, 1, 2) || ratios_are(layout, 2, 2);
    !known || layout.rh == 2 && layout.cw <= 2
}

// Inner: the first of refusals 2, 3, 4, 18, 5, 6, 16, 7, 17 and 10 that applies, which is the order of the table. `room` is the length of the output.
#[tactic(auto, unfolding(laws::specs::Refusals::first, image::specs::Tests::tests_for, crate::specs::Triangular::triangular_tests))]
pub fn triangular_answer(layout: Layout, plane: Plane<'_>, room: usize) -> Result<(), Refusal>
    ensures { result ≡ first (triangular_tests layout (seen plane.entry) room) }
{
    layout.answer(false)?;
    laws::first([
        (bad_triangular(layout), Refusal::NoTriangular),
        (layout.bad_siting(), Refusal::NotCentred),
        (
            plane.is_short(layout, layout.cw, layout.ch),
            Refusal::BadPlane,
        ),
    ])?;
    let above = image::plane_above(layout, plane, layout.cw, layout.ch);
    let short = laws::product_passes(layout.w, layout.h, room);
    laws::first([(above, Refusal::AboveMaxval), (short, Refusal::ShortOutput)])
}
