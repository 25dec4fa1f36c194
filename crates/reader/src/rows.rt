// Row: the row at a reader's place, or any after it.
ghost use Rattle.guided.specs.Calls.{row_call, reply, RowGiven};
ghost use Rattle.image.specs.Picture.{planes_seen};

use crate::checks::{after_row, row_answer};
use crate::copies::copy_rows;
use guided::Reader;
use guided_rows::row_steps;
use image::{Components, Planes};
use laws::Refusal;

// Row `row` of Cb and of Cr to the front of the outputs: the guided rows of the opened picture, whatever was read before.
// Refusals 1, 7, 9, 10, 11 and 12. Scratch afterwards is `row_scratch` of guided's specs/Calls.
pub fn row(
    reader: &mut Reader,
    planes: Planes<'_>,
    row: usize,
    s: &mut [f32],
    out_cb: &mut [f32],
    out_cr: &mut [f32],
) -> Result<(), Refusal>
    ensures { RowGiven
        (row_call row (planes_seen planes.entry) reader.old
        s.old out_cb.old out_cr.old)
        (reply result reader.new) s.new out_cb.new out_cr.new }
{
    row_answer(*reader, planes, row, s, out_cb, out_cr)?;
    let layout = reader_state::reader_layout(*reader);
    row_steps(
        layout,
        planes,
        Components::Both,
        reader.h_next,
        reader.f_next,
        row,
        s,
    );
    copy_rows(s, layout.w, out_cb, out_cr);
    *reader = after_row(*reader, row);
    Ok(())
}
