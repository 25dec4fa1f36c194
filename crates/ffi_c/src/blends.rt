// A row between two photographs, for C, exported.
ghost use Rattle.std.specs.Prelude.{◌≡◌, ◌||◌};
ghost use Rattle.rgb_rows.specs.RgbRows.{side_of};
ghost use Rattle.colorimetry.specs.Blends.{blend_call, BlendGiven};
ghost use Rattle.ffi.specs.Types.{as_planes, as_reader, strange_reader};
ghost use Rattle.ffi.specs.Blends.{BlendChecked};

use ffi::{ChromaBlendReply, ChromaReader, ChromaStrides};

// `blend_row`: one row as RGB between two pictures.
#[unsafe(no_mangle)]
pub extern "C" fn chroma_blend_row(
    early: ChromaReader,
    early_y: &[u8],
    early_cb: &[u8],
    early_cr: &[u8],
    early_strides: ChromaStrides,
    early_s: &mut [f32],
    late: ChromaReader,
    late_y: &[u8],
    late_cb: &[u8],
    late_cr: &[u8],
    late_strides: ChromaStrides,
    late_s: &mut [f32],
    row: usize,
    weight: usize,
    out: &mut [u8],
) -> ChromaBlendReply
    ensures { BlendChecked (strange_reader early || strange_reader late) early late
        ((early_s.new ≡ early_s.old)
        × (late_s.new ≡ late_s.old)
        × (out.new ≡ out.old))
        (λ p. BlendGiven
        (blend_call row weight
        (side_of (as_reader early) (as_planes early_y.now early_cb.now early_cr.now early_strides) early_s.old)
        (side_of (as_reader late) (as_planes late_y.now late_cb.now late_cr.now late_strides) late_s.old)
        out.old)
        p early_s.new late_s.new out.new)
        result }
{
    ffi::chroma_blend_row(
        early,
        early_y,
        early_cb,
        early_cr,
        early_strides,
        early_s,
        late,
        late_y,
        late_cb,
        late_cr,
        late_strides,
        late_s,
        row,
        weight,
        out,
    )
}
