// A chroma row down, from the sums of the rows round it and from its plane: the original's `GuidedRows::finish`.
ghost use Rattle.std.specs.Prelude.{◌≡◌, ℕ, ◌≤◌, ◌<◌, length};
ghost use Rattle.image.specs.Samples.{Plane as Seen, seen};
ghost use Rattle.image.specs.Picture.{picture_of};
ghost use Rattle.image.specs.Scratch.{scratch_need};
ghost use Rattle.guided.specs.Scratch.{finish};
ghost use Rattle.guided_window.specs.Inner.Lent.{ChromaCells, components_of};
ghost use Rattle.guided_down.specs.Inner.Down.{extreme_rows};

use crate::extremes::extreme_row;
use crate::picks::Pick;
use crate::slope_pairs::slope_rows;
use crate::slope_rows::slope_row;
use guided_window::{Buffer, row_at};
use image::{Chroma, Components, Layout, Plane};

// A component's least and greatest samples round each cell of chroma row j, to their buffers.
#[tactic(auto, using(crate::proofs::DownSteps::extreme_rows_are))]
fn extreme_rows(layout: Layout, plane: Plane<'_>, k: Chroma, j: usize, s: &mut [f32])
    requires { ChromaCells layout (seen plane) × (j < layout.ch) × (scratch_need layout ≤ length s.old) }
    ensures { s.new ≡ extreme_rows layout (seen plane.entry) k j s.old }
{
    let least = row_at(layout, Buffer::Least(k), j);
    let greatest = row_at(layout, Buffer::Greatest(k), j);
    extreme_row(layout, plane, Pick::Smaller, j, s, least);
    extreme_row(layout, plane, Pick::Greater, j, s, greatest);
}

// Inner: chroma row j down, of Cb, and of Cr where both are asked for. Luma's plane isn't looked at, so that the promise is for any.
pub fn finish(
    layout: Layout,
    cb: Plane<'_>,
    cr: Plane<'_>,
    components: Components,
    j: usize,
    s: &mut [f32],
)
    requires chroma_cells { ChromaCells layout (seen cb)
        × (components ≡ Components.Both → ChromaCells layout (seen cr)) }
    requires j_lt_ch { (j < layout.ch) × (scratch_need layout ≤ length s.old) }
    ensures { (y : Seen) → s.new ≡ finish
        (picture_of layout (record { y = y; cb = seen cb.entry; cr = seen cr.entry }))
        (components_of components) j s.old }
{
    let Components::Both = components else {
        slope_row(layout, Chroma::Cb, j, s);
        extreme_rows(layout, cb, Chroma::Cb, j, s);
        return;
    };
    slope_rows(layout, j, s);
    extreme_rows(layout, cb, Chroma::Cb, j, s);
    extreme_rows(layout, cr, Chroma::Cr, j, s);
}
