// Open: the checks of a picture and its planes, and the state at row 0.
ghost use Rattle.std.specs.Prelude.{◌≡◌};
ghost use Rattle.image.specs.Inner.Tests.{Sound};
ghost use Rattle.laws.specs.Refusals.{first};
ghost use Rattle.guided.specs.declared.state.Reader.{Reader};
ghost use Rattle.guided.specs.Calls.{after_open, open_call, open_tests, reply, OpenGiven};
ghost use Rattle.image.specs.Picture.{planes_seen};

use guided::Reader;
use image::{Layout, Planes};
use laws::Refusal;

// The state that an accepted open leaves, at row 0.
#[tactic(auto, unfolding(guided::specs::Calls::after_open))]
fn after_open(layout: Layout) -> Reader
    requires { Sound layout }
    ensures { result ≡ after_open layout }
{
    let c = reader_state::fresh_counters(layout, 0);
    let geometry = reader_state::geometry_of(layout);
    reader_state::reader_at(geometry, layout, 0, c)
}

// The lowest refusal of `open` that applies, whatever state it is handed. It writes nothing.
#[tactic(auto, unfolding(laws::specs::Refusals::first, image::specs::Tests::tests_for, guided::specs::Calls::open_tests))]
fn open_answer(layout: Layout, planes: Planes<'_>, s: &[f32]) -> Result<(), Refusal>
    ensures { (reader : Reader) → result ≡ first (open_tests
        (open_call layout (planes_seen planes.entry) s.now reader)) }
{
    layout.answer(false)?;
    laws::first([
        (layout.bad_siting(), Refusal::NotCentred),
        (image::bad_planes(layout, planes), Refusal::BadPlane),
    ])?;
    laws::first([
        (image::above_planes(layout, planes), Refusal::AboveMaxval),
        (image::short_scratch(layout, s.len()), Refusal::ShortScratch),
    ])
}

// Opens a picture: its reader is at row 0, and nothing of an earlier picture is left in it. Refusals 2, 3, 4, 18, 5, 16, 7,
// 17 and 9: every sample of the planes is looked at here, and by no row call. `s` is the scratch that the row calls will be lent. `reader`
// stays as it is where the picture is refused, and is looked at in no case.
#[tactic(auto, using(crate::proofs::LentBytes::lent_bytes))]
pub fn open(
    layout: Layout,
    planes: Planes<'_>,
    s: &[f32],
    reader: &mut Reader,
) -> Result<(), Refusal>
    ensures { OpenGiven
        (open_call layout (planes_seen planes.entry) s.now reader.old)
        (reply result reader.new) }
{
    open_answer(layout, planes, s)?;
    *reader = after_open(layout);
    Ok(())
}
