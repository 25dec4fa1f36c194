// What a row call does beside its steps over scratch: its checks, and the state that it leaves.
ghost use Rattle.std.specs.Prelude.{◌≡◌, ◌<◌};
ghost use Rattle.laws.specs.Refusals.{first};
ghost use Rattle.image.specs.Inner.Tests.{Sound};
ghost use Rattle.guided.specs.Calls.{reader_layout, after_row, row_call, row_tests};
ghost use Rattle.image.specs.Picture.{planes_seen};

use guided::Reader;
use image::Planes;
use laws::Refusal;

// Inner: the lowest refusal of `row` that applies. It writes nothing.
#[tactic(auto, unfolding(guided::specs::Calls::row_tests))]
pub fn row_answer(
    reader: Reader,
    planes: Planes<'_>,
    row: usize,
    s: &[f32],
    out_cb: &[f32],
    out_cr: &[f32],
) -> Result<(), Refusal>
    ensures { result ≡ first (row_tests
        (row_call row (planes_seen planes.entry) reader
        s.now out_cb.now out_cr.now)) }
{
    let layout = reader_state::reader_layout(reader);
    let short = out_cb.len() < layout.w || out_cr.len() < layout.w;
    laws::first([
        (reader_state::bad_state(reader), Refusal::BadState),
        (image::bad_planes(layout, planes), Refusal::BadPlane),
        (image::short_scratch(layout, s.len()), Refusal::ShortScratch),
        (short, Refusal::ShortOutput),
        (layout.h <= row, Refusal::BadRow),
        (row < reader.place, Refusal::RowPassed),
    ])
}

// Inner: the state that an accepted row call leaves at row y. `after_seek` differs in the counters alone: what the two share is `reader_at`, and
// one function for both would be told the counters and save no line.
#[tactic(auto, unfolding(guided::specs::Calls::after_row, guided::specs::Calls::reader_layout))]
pub fn after_row(reader: Reader, y: usize) -> Reader
    requires sound { Sound (reader_layout reader) }
    requires y_lt_h { y < reader.geometry.h }
    ensures { result ≡ after_row reader y }
{
    let layout = reader_state::reader_layout(reader);
    let c = reader_state::done_counters(layout, y);
    let geometry = reader.geometry;
    reader_state::reader_at(geometry, layout, y, c)
}
