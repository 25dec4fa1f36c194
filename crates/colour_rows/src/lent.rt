// What the functions of a row are lent.
ghost use Rattle.std.specs.Prelude.{ℕ, ◌*◌, ◌≤◌, length};
ghost use Rattle.image.specs.Samples.{seen};
ghost use Rattle.colour_rows.specs.Inner.Gathered.{LumaRow};

use image::{Layout, Plane};

// Inner: a row before it is coloured: row `row` of luma's plane, and scratch that holds the two finished rows of chroma, Cb's at 0 and Cr's
// at w.
#[derive(Clone, Copy)]
pub struct LentRow<'a> {
    pub layout: Layout,
    pub plane: Plane<'a>,
    pub row: usize,
    pub s: &'a [f32],
    ghost luma: { LumaRow layout (seen plane) row },
    ghost chroma: { 2 * layout.w ≤ length s.now },
}
