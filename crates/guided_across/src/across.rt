// A chroma row across: for luma a row of cells, a row of their sums and a row of the sums of their squares, for each component a row of
// cells and a row of the sums of its products with luma. A component's own sums are formed where its slopes are made.
ghost use Rattle.std.specs.Prelude.{◌≡◌, ◌≤◌, ◌<◌, length};
ghost use Rattle.image.specs.Samples.{sample_at, seen};
ghost use Rattle.image.specs.Picture.{picture_of, planes_seen, Planes};
ghost use Rattle.image.specs.Scratch.{scratch_need};
ghost use Rattle.guided.specs.Scratch.{horizontal};
ghost use Rattle.guided_across.specs.Inner.Luma.{LumaPixels};
ghost use Rattle.guided_window.specs.Inner.Lent.{ChromaCells, Lent, components_of};
ghost use Rattle.guided_across.specs.Inner.Parts.{luma_part, chroma_part};

use crate::luma::luma_row;
use crate::sums::{Cells, Products, load_row, sum_row};
use guided_window::{Buffer, row_at};
use image::{Chroma, Components, Layout, Plane, Planes};

// Luma's rows of chroma row j: cell luma, its sums, and the sums of its squares.
#[tactic(auto, using(guided::proofs::Places::slot_order))]
fn luma_part(layout: Layout, plane: Plane<'_>, j: usize, s: &mut [f32])
    requires luma_pixels { LumaPixels layout (seen plane) }
    requires j_lt_ch { (j < layout.ch) × (scratch_need layout ≤ length s.old) }
    ensures { s.new ≡ luma_part layout
        (sample_at layout.sample_bytes (seen plane.entry))
        j s.old }
{
    let luma = row_at(layout, Buffer::Luma, j);
    let sums = row_at(layout, Buffer::LumaSums, j);
    let squares = row_at(layout, Buffer::SquareSums, j);
    luma_row(layout, plane, j, s, luma);
    sum_row(s, Cells { src: luma }, layout.cw, sums);
    sum_row(s, Products { a: luma, b: luma }, layout.cw, squares);
}

// A component's rows of chroma row j: the samples, and the sums of their products with the luma that scratch holds.
#[tactic(auto, using(crate::proofs::Areas::row_within, guided::proofs::Places::slot_order))]
fn chroma_part(layout: Layout, plane: Plane<'_>, k: Chroma, j: usize, s: &mut [f32])
    requires chroma_cells { ChromaCells layout (seen plane) }
    requires j_lt_ch { (j < layout.ch) × (scratch_need layout ≤ length s.old) }
    ensures { s.new ≡ chroma_part layout
        (sample_at layout.sample_bytes (seen plane.entry))
        k j s.old }
{
    let y = row_at(layout, Buffer::Luma, j);
    let c = row_at(layout, Buffer::Cells(k), j);
    let products = row_at(layout, Buffer::ProductSums(k), j);
    load_row(
        plane.bytes,
        layout.sample_bytes,
        j * plane.stride,
        layout.cw,
        s,
        c,
    );
    sum_row(s, Products { a: y, b: c }, layout.cw, products);
}

// Inner: chroma row j across: luma's rows, those of Cb, and those of Cr where both are asked for.
pub fn horizontal(
    layout: Layout,
    planes: Planes<'_>,
    components: Components,
    j: usize,
    s: &mut [f32],
)
    requires lent { Lent layout (planes_seen planes) components }
    requires j_lt_ch { (j < layout.ch) × (scratch_need layout ≤ length s.old) }
    ensures { s.new ≡ horizontal
        (picture_of layout (planes_seen planes.entry))
        (components_of components) j s.old }
{
    luma_part(layout, planes.y, j, s);
    chroma_part(layout, planes.cb, Chroma::Cb, j, s);
    let Components::Both = components else {
        return;
    };
    chroma_part(layout, planes.cr, Chroma::Cr, j, s);
}
