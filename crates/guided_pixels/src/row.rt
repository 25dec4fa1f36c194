// A picture row from the window: luma's row of cells and the detail, then each component's rows of cells and its finished row.
ghost use Rattle.std.specs.Prelude.{◌≡◌, ◌≤◌, ◌<◌, length};
ghost use Rattle.image.specs.Inner.Tests.{Sound};
ghost use Rattle.image.specs.Samples.{Plane as Seen, seen};
ghost use Rattle.image.specs.Picture.{picture_of};
ghost use Rattle.image.specs.Scratch.{scratch_need};
ghost use Rattle.guided_across.specs.Inner.Luma.{LumaPixels};
ghost use Rattle.guided_window.specs.Inner.Lent.{components_of};
ghost use Rattle.guided_pixels.specs.Inner.Row.{down_columns, component_row, window_row};

use crate::columns::{RowOfCells, down_row};
use crate::details::detail_row;
use crate::values::value_row;
use guided_window::Buffer;
use image::{Chroma, Components, Layout, Plane};

// A component's samples and slopes, lerped down for row y into its two rows of cells.
#[tactic(auto, unfolding(crate::specs::Inner::Row::down_columns))]
fn down_columns(layout: Layout, k: Chroma, y: usize, s: &mut [f32])
    requires { Sound layout × (y < layout.h) × (scratch_need layout ≤ length s.old) }
    ensures { s.new ≡ down_columns layout k y s.old }
{
    down_row(layout, Buffer::Cells(k), RowOfCells::Samples, y, s);
    down_row(layout, Buffer::Slopes(k), RowOfCells::Slopes, y, s);
}

// A component's rows of cells of row y, and its finished row made of them.
#[tactic(auto, unfolding(crate::specs::Inner::Row::component_row))]
fn component(layout: Layout, k: Chroma, y: usize, s: &mut [f32])
    requires { Sound layout × (y < layout.h) × (scratch_need layout ≤ length s.old) }
    ensures { s.new ≡ component_row layout k y s.old }
{
    down_columns(layout, k, y, s);
    value_row(layout, k, y / layout.rv, s);
}

// Inner: picture row `row` of Cb, and of Cr where both are asked for, from the window that scratch holds. No chroma plane is looked at, so
// that the promise is for any.
pub fn guided_row(layout: Layout, y: Plane<'_>, components: Components, row: usize, s: &mut [f32])
    requires { LumaPixels layout (seen y)
        × (row < layout.h) × (scratch_need layout ≤ length s.old) }
    ensures { (cb cr : Seen) → s.new ≡ window_row
        (picture_of layout (record { y = seen y.entry; cb = cb; cr = cr }))
        (components_of components) row s.old }
{
    down_row(layout, Buffer::Luma, RowOfCells::Samples, row, s);
    detail_row(layout, y, row, s);
    component(layout, Chroma::Cb, row, s);
    let Components::Both = components else {
        return;
    };
    component(layout, Chroma::Cr, row, s);
}
