// Rows of a fill: chroma into scratch, then colour into out.
ghost use Rattle.std.specs.Prelude.{◌≡◌, ◌+◌, ◌-◌, ◌*◌, ◌≤◌, ◌<◌, length};
ghost use Rattle.image.specs.Picture.{picture_of, planes_seen};
ghost use Rattle.linear.specs.Linear.{linear_row};
ghost use Rattle.linear.specs.Inner.Linear.{Ready};
ghost use Rattle.image.specs.Scratch.{scratch_need};
ghost use Rattle.colour_rows.specs.Inner.Colours.{ranged_row};
ghost use Rattle.fill.specs.Fill.{fill_colour, pixel_rows, fill_scratch};
ghost use Rattle.fill.specs.Inner.Steps.{fill_step, ChromaLent, FillLent};
ghost use Rattle.image.specs.Samples.{seen};

use crate::options::ChromaUpsampling;
use colour_rows::LentRow;
use image::{Components, Layout, Planes};
use kernels::YcbcrKernel;

// Makes a row of linear chroma in scratch, Cb's at 0 and Cr's at w, where the guided row has them too.
fn linear_pair(layout: Layout, planes: Planes<'_>, row: usize, s: &mut [f32])
    requires ready { Ready layout (seen planes.cb) (length s.old) }
    requires ready_2 { Ready layout (seen planes.cr) (length s.old) }
    requires row_lt_h { row < layout.h }
    ensures { s.new ≡ linear_row
        layout (seen planes.entry.cr) layout.w row
        (linear_row layout (seen planes.entry.cb) 0 row s.old) }
{
    linear::linear_row(layout, planes.cb, row, s, 0);
    linear::linear_row(layout, planes.cr, row, s, layout.w);
}

// Makes row first + n of chroma in scratch, the rows from first on having been made before it.
fn chroma_row(
    layout: Layout,
    planes: Planes<'_>,
    upsampling: ChromaUpsampling,
    first: usize,
    n: usize,
    s: &mut [f32],
)
    requires chroma_lent { ChromaLent upsampling layout (planes_seen planes) }
    requires n_bound { (first + n < layout.h) × (scratch_need layout ≤ length s.old) }
    ensures { s.new ≡ fill_step upsampling layout
        (planes_seen planes.entry)
        first n s.old }
{
    match upsampling {
        ChromaUpsampling::Linear => {
            linear_pair(layout, planes, first + n, s);
        }
        ChromaUpsampling::LumaGuided => {
            guided_rows::guided_step(layout, planes, Components::Both, first, n, s);
        }
    }
}

// Makes row first + n: its chroma, then its colour at its place in out. Its nine parameters are the seven that `fill` is handed and which
// row: a struct of some would be made by two calls, for this function and `fill_rows` to take apart.
fn fill_row(
    layout: Layout,
    planes: Planes<'_>,
    upsampling: ChromaUpsampling,
    kernel: YcbcrKernel,
    size: usize,
    first: usize,
    n: usize,
    s: &mut [f32],
    out: &mut [u8],
)
    requires fill_lent { FillLent upsampling layout (planes_seen planes) size (length s.old) (length out.old) }
    requires n_bound { (first + n < layout.h) }
    ensures s_after { s.new ≡ fill_step upsampling layout
        (planes_seen planes.entry)
        first n s.old }
    ensures out_after { out.new ≡ ranged_row kernel layout
        (seen planes.entry.y) (first + n)
        (fill_step upsampling layout (planes_seen planes.entry) first n s.old)
        ((first + n) * (layout.w * size)) size out.old }
{
    let row = first + n;
    let at = row * (layout.w * size);
    chroma_row(layout, planes, upsampling, first, n, s);
    let lent = LentRow {
        layout,
        plane: planes.y,
        row,
        s,
    };
    colour_rows::colour_row(kernel, lent, size, out, at);
}

// Inner: makes rows a, .. b - 1 of the picture, whatever scratch holds. Its nine parameters are the seven that `fill` is handed and from
// where to where.
pub fn fill_rows(
    layout: Layout,
    planes: Planes<'_>,
    upsampling: ChromaUpsampling,
    kernel: YcbcrKernel,
    size: usize,
    a: usize,
    b: usize,
    s: &mut [f32],
    out: &mut [u8],
)
    requires fill_lent { FillLent upsampling layout (planes_seen planes) size (length s.old) (length out.old) }
    requires a_le_b { (a ≤ b) × (b ≤ layout.h) }
    ensures out_after { out.new ≡ pixel_rows layout.w size
        (fill_colour upsampling kernel (picture_of layout (planes_seen planes.entry)))
        a (b - a) out.old }
    ensures s_after { s.new ≡ fill_scratch upsampling layout
        (planes_seen planes.entry)
        a (b - a) s.old }
{
    let rows = b - a;
    for n in 0..rows {
        fill_row(layout, planes, upsampling, kernel, size, a, n, s, out);
    }
}
