// Seek: a reader moved to any row.
ghost use Rattle.std.specs.Prelude.{◌≡◌, ◌<◌};
ghost use Rattle.image.specs.Inner.Tests.{Sound};
ghost use Rattle.laws.specs.Refusals.{first};
ghost use Rattle.guided.specs.Calls.{reader_layout, after_seek, seek_call, seek_tests, reply, SeekGiven};

use guided::Reader;
use laws::Refusal;

// The state that an accepted seek leaves at row y.
#[tactic(auto, unfolding(guided::specs::Calls::after_seek, guided::specs::Calls::reader_layout))]
fn after_seek(reader: Reader, y: usize) -> Reader
    requires sound { Sound (reader_layout reader) }
    requires y_lt_h { y < reader.geometry.h }
    ensures { result ≡ after_seek reader y }
{
    let layout = reader_state::reader_layout(reader);
    let c = reader_state::fresh_counters(layout, y);
    let geometry = reader.geometry;
    reader_state::reader_at(geometry, layout, y, c)
}

// The lowest refusal of `seek` that applies.
#[tactic(auto, unfolding(guided::specs::Calls::seek_tests))]
fn seek_answer(reader: Reader, y: usize) -> Result<(), Refusal>
    ensures { result ≡ first (seek_tests (seek_call y reader)) }
{
    laws::first([
        (reader_state::bad_state(reader), Refusal::BadState),
        (reader.geometry.h <= y, Refusal::BadRow),
    ])
}

// Moves a reader to any row, back as well. Refusals 1 and 11.
pub fn seek(reader: &mut Reader, y: usize) -> Result<(), Refusal>
    ensures { SeekGiven (seek_call y reader.old) (reply result reader.new) }
{
    seek_answer(*reader, y)?;
    *reader = after_seek(*reader, y);
    Ok(())
}
