// What an RGB row call answers.
ghost use Rattle.std.specs.Prelude.{◌≡◌};
ghost use Rattle.laws.specs.Refusals.{first};
ghost use Rattle.image.specs.Picture.{planes_seen};
ghost use Rattle.rgb_rows.specs.RgbRows.{side_of, rgb_row_call, rgb_row_tests};

use guided::Reader;
use image::Planes;
use laws::Refusal;

// What `rgb_row` would answer: the lowest of 1, 7, 9, 10, 11 and 12 that applies. It writes nothing.
#[tactic(auto, unfolding(crate::specs::RgbRows::rgb_row_tests))]
pub fn rgb_row_answer(
    reader: Reader,
    planes: Planes<'_>,
    row: usize,
    s: &[f32],
    out: &[u8],
) -> Result<(), Refusal>
    ensures { result ≡ first (rgb_row_tests
        (rgb_row_call row (side_of reader (planes_seen planes.entry) s.now)
        out.now)) }
{
    let layout = reader_state::reader_layout(reader);
    laws::first([
        (reader_state::bad_state(reader), Refusal::BadState),
        (image::bad_planes(layout, planes), Refusal::BadPlane),
        (image::short_scratch(layout, s.len()), Refusal::ShortScratch),
        (
            laws::product_passes(layout.w, 3, out.len()),
            Refusal::ShortOutput,
        ),
        (layout.h <= row, Refusal::BadRow),
        (row < reader.place, Refusal::RowPassed),
    ])
}
