// A row between two photographs, from their readers.
ghost use Rattle.std.specs.Prelude.{◌≡◌, ◌≤◌, Ok};
ghost use Rattle.reconstruction.specs.Geometry.{planes_seen};
ghost use Rattle.reconstruction.specs.Reader.{side_of, rgb_row_call};
ghost use Rattle.reconstruction.specs.Refusals.{first, rgb_row_tests};
ghost use Rattle.colorimetry.specs.Blends.{blend_call, blend_reply, BlendGiven};
ghost use Rattle.colorimetry.specs.Inner.Blending.{LateGiven};

mod answers;

use crate::mix::mix_bytes;
use answers::blend_answer;
use reconstruction::{Planes, Reader, Refusal};

// Room for the late picture's row, of the greatest width. Scratch is floats and can't lend bytes.
fn late_room() -> [u8; 24_576] {
    [0; 24_576]
}

// The late picture's row, mixed over the early one's that stands in out, and the late reader moved as by a row call, which would be accepted.
fn mix_late(
    late: &mut Reader,
    planes: Planes<'_>,
    s: &mut [f32],
    row: usize,
    weight: usize,
    out: &mut [u8],
) -> Result<(), Refusal>
    requires out_value { first (rgb_row_tests (rgb_row_call row (side_of late.old (planes_seen planes) s.old) out.old)) ≡ Ok tt }
    requires weight_bound { weight ≤ 16 }
    ensures accepts { result ≡ Ok tt }
    ensures gives { LateGiven weight
        (side_of late.old (planes_seen planes.entry) s.old)
        row out.old late.new s.new out.new }
{
    let mut room = late_room();
    let w = late.geometry.w;
    reconstruction::rgb_row(late, planes, row, s, &mut room)?;
    mix_bytes(weight, &room, w * 3, out);
    Ok(())
}

// Row `row` between two pictures of equal geometry, as w pixels of three bytes to the front of out: guided and exact, the early picture's
// bytes at weight 0, the late one's at 16, and mixed by sixteenths between. Both readers are moved as by a row call. Surplus bytes are left.
// Refusals 1 for either state, 22 for unequal geometry or a weight above 16, then 7, 9, 10, 11 and 12 for either picture, the lowest first.
// A refusal leaves both states, both scratches and out.
pub fn blend_row(
    early: &mut Reader,
    early_planes: Planes<'_>,
    early_s: &mut [f32],
    late: &mut Reader,
    late_planes: Planes<'_>,
    late_s: &mut [f32],
    row: usize,
    weight: usize,
    out: &mut [u8],
) -> Result<(), Refusal>
    ensures { BlendGiven
        (blend_call row weight
        (side_of early.old (planes_seen early_planes.entry) early_s.old)
        (side_of late.old (planes_seen late_planes.entry) late_s.old)
        out.old)
        (blend_reply result early.new late.new) early_s.new late_s.new out.new }
{
    blend_answer(
        *early,
        early_planes,
        early_s,
        *late,
        late_planes,
        late_s,
        row,
        weight,
        out,
    )?;
    reconstruction::rgb_row(early, early_planes, row, early_s, out)?;
    mix_late(late, late_planes, late_s, row, weight, out)
}
