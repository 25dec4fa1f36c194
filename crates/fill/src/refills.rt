// Refill: after a rectangle of chroma cells was replaced, the rows near it once more, in place.
//
// `refill`'s eight parameters travel one by one to its answer, since each test of that looks at one or two of them: a struct would be taken
// apart as soon as it is made, and the record that they are for contracts is `RefillCall`.
ghost use Rattle.std.specs.Prelude.{◌≡◌, ◌||◌, false};
ghost use Rattle.laws.specs.Refusals.{first};
ghost use Rattle.image.specs.Inner.Tests.{Sound};
ghost use Rattle.image.specs.Picture.{planes_seen, bad_planes};
ghost use Rattle.image.specs.Limits.{above_any};
ghost use Rattle.image.specs.Rectangles.{past_cells};
ghost use Rattle.fill.specs.Refill.{refill_call, refill_tests, near_first, near_end, RefillGiven};
ghost use Rattle.fill.specs.Inner.Refill.{planes_tests, lent_tests};

use crate::answer::is_fixed;
use crate::options::ChromaUpsampling;
use crate::rows::fill_rows;
use image::{Layout, Planes, Rectangle};
use kernels::YcbcrKernel;
use laws::Refusal;

// Refusal 7's test for both sets of planes.
fn either_short(layout: Layout, old: Planes<'_>, new: Planes<'_>) -> bool
    ensures { result ≡ (bad_planes layout (planes_seen old.entry) || bad_planes layout (planes_seen new.entry)) }
{
    image::bad_planes(layout, old) || image::bad_planes(layout, new)
}

// Refusal 17's test for both sets of planes, none of which is short.
fn either_above(layout: Layout, old: Planes<'_>, new: Planes<'_>) -> bool
    requires { Sound layout
        × (bad_planes layout (planes_seen old) ≡ false)
        × (bad_planes layout (planes_seen new) ≡ false) }
    ensures { result ≡ (above_any layout (planes_seen old.entry) || above_any layout (planes_seen new.entry)) }
{
    image::above_planes(layout, old) || image::above_planes(layout, new)
}

// The first refusal that the layout and the two sets of planes get.
#[tactic(auto, unfolding(laws::specs::Refusals::first, image::specs::Tests::tests_for, crate::specs::Inner::Refill::planes_tests))]
fn planes_answer(
    layout: Layout,
    old: Planes<'_>,
    new: Planes<'_>,
    kernel: YcbcrKernel,
) -> Result<(), Refusal>
    ensures { result ≡ first (planes_tests kernel layout (planes_seen old.entry) (planes_seen new.entry)) }
{
    layout.answer(is_fixed(kernel))?;
    laws::first([
        (layout.bad_siting(), Refusal::NotCentred),
        (either_short(layout, old, new), Refusal::BadPlane),
    ])?;
    laws::first([(either_above(layout, old, new), Refusal::AboveMaxval)])
}

// The first refusal of all tests but the last, which is 21's.
#[tactic(auto, unfolding(laws::specs::Refusals::first, image::specs::Tests::tests_for, crate::specs::Inner::Refill::planes_tests, crate::specs::Inner::Refill::lent_tests))]
fn lent_answer(
    layout: Layout,
    old: Planes<'_>,
    new: Planes<'_>,
    cells: Rectangle,
    kernel: YcbcrKernel,
    size: usize,
    s: &[f32],
    out: &[u8],
) -> Result<(), Refusal>
    ensures { result ≡ first (lent_tests
        (refill_call layout (planes_seen old.entry) (planes_seen new.entry)
        cells kernel size s.now out.now)) }
{
    planes_answer(layout, old, new, kernel)?;
    let short = laws::volume_passes(layout.w, layout.h, size, out.len());
    laws::first([
        (laws::outside(3, 4, size), Refusal::BadPixelSize),
        (image::short_scratch(layout, s.len()), Refusal::ShortScratch),
        (cells.past_cells(layout), Refusal::BadRectangle),
        (short, Refusal::ShortOutput),
    ])
}

// Inner: the first refusal of `refill` that applies. It writes nothing.
#[tactic(auto, unfolding(laws::specs::Refusals::first, image::specs::Tests::tests_for, crate::specs::Inner::Refill::planes_tests, crate::specs::Inner::Refill::lent_tests, crate::specs::Refill::refill_tests))]
pub fn refill_answer(
    layout: Layout,
    old: Planes<'_>,
    new: Planes<'_>,
    cells: Rectangle,
    kernel: YcbcrKernel,
    size: usize,
    s: &[f32],
    out: &[u8],
) -> Result<(), Refusal>
    ensures { result ≡ first (refill_tests
        (refill_call layout (planes_seen old.entry) (planes_seen new.entry)
        cells kernel size s.now out.now)) }
{
    lent_answer(layout, old, new, cells, kernel, size, s, out)?;
    let changed = image::other_change(layout, old, new, cells);
    laws::first([(changed, Refusal::OtherChange)])
}

// The first row that is converted once more.
#[tactic(auto, using(crate::proofs::Near::top_most), unfolding(crate::specs::Refill::near_first))]
fn near_first(layout: Layout, cells: Rectangle) -> usize
    requires { Sound layout × (past_cells layout cells ≡ false) }
    ensures { result ≡ near_first layout cells }
{
    if cells.is_empty() {
        return 0;
    }
    cells.top.saturating_sub(2) * layout.rv
}

// The row behind the last one.
#[tactic(auto, using(crate::proofs::Near::top_most), unfolding(crate::specs::Refill::near_end))]
fn near_end(layout: Layout, cells: Rectangle) -> usize
    requires { Sound layout × (past_cells layout cells ≡ false) }
    ensures { result ≡ near_end layout cells }
{
    if cells.is_empty() {
        return 0;
    }
    let end = (cells.top + cells.height + 2) * layout.rv;
    end.min(layout.h)
}

// Converts once more, guided, the rows whose cell row is within two of the rectangle of chroma cells, from the planes as they are after the
// change; out is the picture as it was, and where that was the guided conversion before the change it becomes the one after it. The planes
// before are looked at by the checks alone. Refusals 2, 3, 4, 18, 5, 16, 7, 17, 8, 9, 19, 10 and 21, 7 and 17 for both sets of planes.
// Scratch afterwards is `fill_scratch` of specs/Fill over those rows.
pub fn refill(
    layout: Layout,
    old: Planes<'_>,
    new: Planes<'_>,
    cells: Rectangle,
    kernel: YcbcrKernel,
    size: usize,
    s: &mut [f32],
    out: &mut [u8],
) -> Result<(), Refusal>
    ensures { RefillGiven
        (refill_call layout (planes_seen old.entry) (planes_seen new.entry)
        cells kernel size s.old out.old)
        result s.new out.new }
{
    refill_answer(layout, old, new, cells, kernel, size, s, out)?;
    let a = near_first(layout, cells);
    let b = near_end(layout, cells);
    fill_rows(
        layout,
        new,
        ChromaUpsampling::LumaGuided,
        kernel,
        size,
        a,
        b,
        s,
        out,
    );
    Ok(())
}
