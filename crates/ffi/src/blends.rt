// A row between two photographs, for C.
ghost use Rattle.std.specs.Prelude.{◌≡◌, ◌||◌};
ghost use Rattle.rgb_rows.specs.RgbRows.{side_of};
ghost use Rattle.colorimetry.specs.Blends.{blend_call, blend_reply, BlendGiven};
ghost use Rattle.ffi.specs.Types.{as_planes, as_reader, strange_reader};
ghost use Rattle.ffi.specs.Blends.{blend_reply_to, BlendChecked};

use crate::types::{
    ChromaReader, ChromaStrides, from_reader, number_of, strange_reader, to_planes, to_reader,
};
use guided::Reader;
use laws::Refusal;

// What `chroma_blend_row` answers, with both states after it.
#[repr(C)]
#[derive(Clone, Copy)]
pub struct ChromaBlendReply {
    pub refusal: u32,
    pub early: ChromaReader,
    pub late: ChromaReader,
}

// A reply in C's form; `early` and `late` come back, bit for bit, where the call was refused.
#[tactic(auto, unfolding(crate::specs::Blends::blend_reply_to))]
fn blend_reply_to(
    early: ChromaReader,
    late: ChromaReader,
    answer: Result<(), Refusal>,
    first: Reader,
    second: Reader,
) -> ChromaBlendReply
    ensures { result ≡ blend_reply_to early late (blend_reply answer first second) }
{
    if answer.is_err() {
        return ChromaBlendReply {
            refusal: number_of(answer),
            early,
            late,
        };
    }
    ChromaBlendReply {
        refusal: 0,
        early: from_reader(first),
        late: from_reader(second),
    }
}

// `blend_row`: one row as RGB between two pictures.
pub fn chroma_blend_row(
    early: ChromaReader,
    early_y: &[u8],
    early_cb: &[u8],
    early_cr: &[u8],
    early_strides: ChromaStrides,
    early_s: &mut [f32],
    late: ChromaReader,
    late_y: &[u8],
    late_cb: &[u8],
    late_cr: &[u8],
    late_strides: ChromaStrides,
    late_s: &mut [f32],
    row: usize,
    weight: usize,
    out: &mut [u8],
) -> ChromaBlendReply
    ensures { BlendChecked (strange_reader early || strange_reader late) early late
        ((early_s.new ≡ early_s.old)
        × (late_s.new ≡ late_s.old)
        × (out.new ≡ out.old))
        (λ p. BlendGiven
        (blend_call row weight
        (side_of (as_reader early) (as_planes early_y.now early_cb.now early_cr.now early_strides) early_s.old)
        (side_of (as_reader late) (as_planes late_y.now late_cb.now late_cr.now late_strides) late_s.old)
        out.old)
        p early_s.new late_s.new out.new)
        result }
{
    if strange_reader(early) || strange_reader(late) {
        return ChromaBlendReply {
            refusal: 1,
            early,
            late,
        };
    }
    let mut first = to_reader(early);
    let mut second = to_reader(late);
    let answer = colorimetry::blend_row(
        &mut first,
        to_planes(early_y, early_cb, early_cr, early_strides),
        early_s,
        &mut second,
        to_planes(late_y, late_cb, late_cr, late_strides),
        late_s,
        row,
        weight,
        out,
    );
    blend_reply_to(early, late, answer, first, second)
}
