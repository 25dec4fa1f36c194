// Triangular chroma upsampling of a whole plane: `triangular` of the original's src/jpeg/upsample.rs, and the public call.
ghost use Rattle.std.specs.Prelude.{◌≡◌, ◌*◌, ◌<◌, length};
ghost use Rattle.laws.specs.Lists.{put};
ghost use Rattle.image.specs.Samples.{sample_at, seen};
ghost use Rattle.upsample.specs.Triangular.{TriangularGiven, triangular_plane, triangular_sample};
ghost use Rattle.upsample.specs.Inner.Pairs.{Taken};

use crate::across::across_row;
use crate::answer::triangular_answer;
use crate::axes::Bias;
use crate::rows::CellRows;
use image::{Layout, Plane};
use laws::Refusal;

// Row y of an accepted call, by the ratios. At rv 1 a row of cells is a row of output; at rv 2 output row y lies between cell row y / 2 and
// the far one.
fn triangular_row(layout: Layout, plane: Plane<'_>, y: usize, out: &mut [u16])
    requires { Taken layout (seen plane) (length out.old) × (y < layout.h) }
    ensures { out.new ≡ put out.old (y * layout.w) layout.w
        (triangular_sample layout (sample_at layout.sample_bytes (seen plane.entry)) y) }
{
    let bytes = plane.bytes;
    let sample_bytes = layout.sample_bytes;
    let cw = layout.cw;
    let w = layout.w;
    let at = y * w;
    if layout.rv == 1 {
        let near = y * plane.stride;
        let rows = CellRows {
            bytes,
            near,
            far: near,
        };
        across_row(rows, sample_bytes, cw, w, Bias::ACROSS, out, at);
        return;
    }
    let near = y / 2 * plane.stride;
    let far = crate::weights::far(y, layout.ch) * plane.stride;
    let rows = CellRows { bytes, near, far };
    if layout.rh == 1 {
        let bias = crate::weights::one_axis_bias(y);
        crate::down::down_row(rows, sample_bytes, bias, w, out, at);
        return;
    }
    across_row(rows, sample_bytes, cw, w, Bias::BOTH, out, at);
}

// All rows of an accepted call, one after another.
#[tactic(auto, using(laws::proofs::Lists::rows_none))]
fn triangular(layout: Layout, plane: Plane<'_>, out: &mut [u16])
    requires { Taken layout (seen plane) (length out.old) }
    ensures { out.new ≡ triangular_plane layout (seen plane.entry) out.old }
{
    for y in 0..layout.h {
        triangular_row(layout, plane, y, out);
    }
}

// One whole chroma plane by triangular weights: w by h values into out. It answers refusals 2, 3, 4, 18, 5, 6,
// 16, 7, 17 and 10, and takes no scratch.
#[tactic(auto, using(crate::proofs::Accepted::taken))]
pub fn triangular_plane(layout: Layout, plane: Plane<'_>, out: &mut [u16]) -> Result<(), Refusal>
    ensures { TriangularGiven layout (seen plane.entry) out.old result out.new }
{
    triangular_answer(layout, plane, out.len())?;
    triangular(layout, plane, out);
    Ok(())
}
