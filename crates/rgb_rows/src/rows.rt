// A reader's row as RGB bytes.
ghost use Rattle.image.specs.Picture.{planes_seen};
ghost use Rattle.guided.specs.Calls.{reply};
ghost use Rattle.rgb_rows.specs.RgbRows.{side_of, rgb_row_call, RgbRowGiven};

use crate::answers::rgb_row_answer;
use colour_rows::LentRow;
use guided::Reader;
use image::{Components, Planes};
use kernels::YcbcrKernel;
use laws::Refusal;
use reader::after_row;

// Row `row` as w pixels of three bytes to the front of out: guided, by the exact kernel, and the reader moved as by `row`. Surplus bytes are
// left. Refusals 1, 7, 9, 10 (out shorter than 3·w), 11 and 12. Scratch afterwards is what `row` leaves.
pub fn rgb_row(
    reader: &mut Reader,
    planes: Planes<'_>,
    row: usize,
    s: &mut [f32],
    out: &mut [u8],
) -> Result<(), Refusal>
    ensures { RgbRowGiven
        (rgb_row_call row (side_of reader.old (planes_seen planes.entry) s.old)
        out.old)
        (reply result reader.new) s.new out.new }
{
    rgb_row_answer(*reader, planes, row, s, out)?;
    let layout = reader_state::reader_layout(*reader);
    guided_rows::row_steps(
        layout,
        planes,
        Components::Both,
        reader.h_next,
        reader.f_next,
        row,
        s,
    );
    let lent = LentRow {
        layout,
        plane: planes.y,
        row,
        s,
    };
    colour_rows::colour_row(YcbcrKernel::Exact, lent, 3, out, 0);
    *reader = after_row(*reader, row);
    Ok(())
}
