// What a component's values are made of: where those rows lie in scratch, where the finished row goes, and how a value is limited.
ghost use Rattle.std.specs.Prelude.{◌≡◌, ℕ, Float};
ghost use Rattle.laws.specs.Floats.{◌⊕◌, ◌⊗◌};
ghost use Rattle.laws.specs.Lists.{table};
ghost use Rattle.image.specs.Inner.Tests.{Sound};
ghost use Rattle.fround.specs.Rounding.{fmin, fmax};
ghost use Rattle.guided.specs.Scratch.{finished_at};
ghost use Rattle.guided_pixels.specs.Inner.Values.{inputs_of};

use crate::columns::{RowOfCells, column_at};
use fround::{fmax_lanes, fmin_lanes};
use guided_window::{Buffer, row_at};
use image::{Chroma, Layout};
use std::simd::f32x8;

// Where the rows begin that a component's values are made of: its cells and slopes, lerped down for a picture row, and the least and
// greatest samples of a chroma row.
#[derive(Clone, Copy)]
pub struct ValueInputs {
    pub cells: usize,
    pub slopes: usize,
    pub least: usize,
    pub greatest: usize,
}

// A cell of a component, lerped across in each of its pixels, and its limits.
#[derive(Clone, Copy)]
pub struct ValueCell {
    pub cells: [f32; 4],
    pub slopes: [f32; 4],
    pub least: f32,
    pub greatest: f32,
}

// Inner: where a component's finished row begins in scratch: Cb's at its beginning, Cr's behind it.
pub fn finished_at(layout: Layout, k: Chroma) -> usize
    ensures { result ≡ finished_at layout k }
{
    match k {
        Chroma::Cb => 0,
        Chroma::Cr => layout.w,
    }
}

// Inner: where the rows begin that a component's values in the cells of chroma row j are made of.
#[tactic(auto, unfolding(crate::specs::Inner::Values::inputs_of))]
pub fn inputs_of(layout: Layout, k: Chroma, j: usize) -> ValueInputs
    requires { Sound layout }
    ensures { result ≡ inputs_of layout k j }
{
    ValueInputs {
        cells: column_at(layout, RowOfCells::Samples),
        slopes: column_at(layout, RowOfCells::Slopes),
        least: row_at(layout, Buffer::Least(k), j),
        greatest: row_at(layout, Buffer::Greatest(k), j),
    }
}

// Inner: a value "raised to the least and lowered to the greatest", in this order.
pub fn limited(v: f32, least: f32, greatest: f32) -> f32
    ensures { result ≡ fmin (fmax v least) greatest }
{
    fround::fmin(fround::fmax(v, least), greatest)
}

// Inner: eight values, each "c + a·(luma − y), then raised to the least and lowered to the greatest".
pub fn values(c: f32x8, a: f32x8, d: f32x8, least: f32x8, greatest: f32x8) -> f32x8
    ensures { (f g h lo hi : ℕ → Float) → c ≡ table 8 f → a ≡ table 8 g → d ≡ table 8 h → least ≡ table 8 lo → greatest ≡ table 8 hi
        → result ≡ table 8 (λ k. fmin (fmax (f k ⊕ g k ⊗ h k) (lo k)) (hi k)) }
{
    fmin_lanes(fmax_lanes(c + a * d, least), greatest)
}
