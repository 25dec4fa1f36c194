// A component's values in the pixels of a picture row, from its rows of cells and the detail: document 01's "c + a·(luma − y), then raised to
// the least and lowered to the greatest c" of a pixel's cell, c and a being the cells and slopes lerped across.
ghost use Rattle.std.specs.Prelude.{◌≡◌, ℕ, ◌+◌, ◌*◌, ◌≤◌, ◌<◌, length};
ghost use Rattle.image.specs.Inner.Tests.{Sound};
ghost use Rattle.image.specs.Scratch.{cell_at, scratch_need};
ghost use Rattle.guided_pixels.specs.Inner.Values.{InputsInside, CellGiven, value_at, value_row};
ghost use Rattle.guided_pixels.specs.Inner.Laws.{value_keeps, cell_keeps, value_within};

use crate::lines::Line;
use crate::pairs::{Pairs, across_pixel, cell_at, lefts, pairs_at, rights};
use crate::rows::line_row;
use crate::value_inputs::{ValueCell, ValueInputs, finished_at, inputs_of, limited, values};
use guided_window::Window;
use image::{Chroma, Layout};
use lanes::load;
use std::simd::f32x16;
use taps::Phase;

impl Line for ValueInputs {
    ghost value = { λ t l s x. value_at l s t x };

    ghost low = { λ t l. 2 * l.w };

    ghost given = { λ t l len. InputsInside t (3 * l.w) l.cw len };

    type Lerped = ValueCell;

    ghost lerped = { λ t l s i c. CellGiven l t s i c };

    fn pixel(self, layout: Layout, s: &[f32], x: usize) -> f32 {
        let c = across_pixel(layout, s, self.cells, x);
        let a = across_pixel(layout, s, self.slopes, x);
        let i = x / layout.rh;
        let d = s[Window::DETAIL * layout.w + x];
        limited(c + a * d, s[self.least + i], s[self.greatest + i])
    }

    fn one(self, layout: Layout, s: &[f32], x: usize) -> f32 {
        let c = taps::lerp(s[self.cells + x], s[self.cells + (x + 1)], 0.0);
        let a = taps::lerp(s[self.slopes + x], s[self.slopes + (x + 1)], 0.0);
        let d = s[Window::DETAIL * layout.w + x];
        limited(c + a * d, s[self.least + x], s[self.greatest + x])
    }

    fn pairs(self, layout: Layout, s: &[f32], i: usize) -> Pairs {
        let c = pairs_at(s, self.cells, i);
        let a = pairs_at(s, self.slopes, i);
        let d: f32x16 = load(s, Window::DETAIL * layout.w + (2 + 2 * i));
        let least = load(s, self.least + (i + 1));
        let greatest = load(s, self.greatest + (i + 1));
        Pairs {
            left: values(c.left, a.left, lefts(d), least, greatest),
            right: values(c.right, a.right, rights(d), least, greatest),
        }
    }

    fn lerp(self, layout: Layout, phases: [Phase; 4], s: &[f32], i: usize) -> ValueCell {
        ValueCell {
            cells: cell_at(layout, s, self.cells, phases, i),
            slopes: cell_at(layout, s, self.slopes, phases, i),
            least: s[self.least + i],
            greatest: s[self.greatest + i],
        }
    }

    fn in_cell(self, layout: Layout, s: &[f32], cell: &ValueCell, i: usize, k: usize) -> f32 {
        let x = i * layout.rh + k;
        let d = s[Window::DETAIL * layout.w + x];
        limited(
            cell.cells[k] + cell.slopes[k] * d,
            cell.least,
            cell.greatest,
        )
    }

    ghost keeps = { λ t l len o g. value_keeps l o t len g };

    ghost lerped_keeps = { λ t l len xs ys i c o g h e p. cell_keeps l o t len xs ys i c g h e p };

    ghost within = { λ t l len g. value_within l t len g };
}

// Inner: a component's finished row from its rows of cells, its least and greatest samples of chroma row j, and the detail.
pub fn value_row(layout: Layout, k: Chroma, j: usize, s: &mut [f32])
    requires { Sound layout × (scratch_need layout ≤ length s.old) }
    ensures { s.new ≡ value_row layout k j s.old }
{
    let dst = finished_at(layout, k);
    line_row(layout, inputs_of(layout, k, j), s, dst);
}
