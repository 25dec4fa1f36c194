// The detail of a picture row: luma less what its cells lerp to, document 01's "luma − y".
ghost use Rattle.std.specs.Prelude.{◌≡◌, ℕ, ◌+◌, ◌*◌, ◌≤◌, ◌<◌, Float, length, get_or};
ghost use Rattle.std.specs.Float.{nan};
ghost use Rattle.image.specs.Scratch.{cell_at, scratch_need};
ghost use Rattle.laws.specs.Floats.{f32, ◌⊖◌};
ghost use Rattle.laws.specs.Lists.{table};
ghost use Rattle.image.specs.Samples.{sample_at, seen};
ghost use Rattle.guided.specs.Guided.{across_to};
ghost use Rattle.guided_across.specs.Inner.Luma.{LumaPixels};
ghost use Rattle.guided_pixels.specs.Inner.Pixels.{detail_in, detail_line};
ghost use Rattle.guided_pixels.specs.Inner.Laws.{detail_keeps, across_keeps, detail_within};

use crate::columns::{RowOfCells, column_at};
use crate::lines::Line;
use crate::pairs::{Pairs, across_pixel, cell_at, lefts, pairs_at, rights};
use crate::rows::line_row;
use guided_window::{Window, sample_at};
use image::{Layout, Plane};
use std::simd::{f32x8, f32x16, u16x16};
use taps::Phase;

// The detail of row y of a luma plane, by the cells at src.
#[derive(Clone, Copy)]
pub struct Detail<'a> {
    pub plane: Plane<'a>,
    pub y: usize,
    pub src: usize,
}

// Luma less what its cells lerp to, of eight pixels.
fn less(luma: f32x8, cells: f32x8) -> f32x8
    ensures { (f g : ℕ → Float) → luma ≡ table 8 f → cells ≡ table 8 g → result ≡ table 8 (λ k. f k ⊖ g k) }
{
    luma - cells
}

impl Detail<'_> {
    // Luma's sample in column x.
    fn luma(self, layout: Layout, x: usize) -> f32
        requires { LumaPixels layout (seen self.plane) × (self.y < layout.h) × (x < layout.w) }
        ensures { result ≡ f32 (sample_at layout.sample_bytes (seen self.entry.plane) self.entry.y x) }
    {
        sample_at(layout, self.plane, layout.w, layout.h, x, self.y)
    }

    // Luma's samples in the sixteen columns from x on.
    fn lumas(self, layout: Layout, x: usize) -> f32x16
        requires { LumaPixels layout (seen self.plane) × (self.y < layout.h) × (x + 16 ≤ layout.w) }
        ensures { result ≡ table 16 (λ k. f32 (sample_at layout.sample_bytes (seen self.entry.plane) self.entry.y (x + k))) }
    {
        u16x16::from_array(image::row_block(self.plane, layout.sample_bytes, self.y, x)).cast::<
            f32,
        >()
    }
}

impl Line for Detail<'_> {
    ghost value = { λ t l s x. detail_in l (seen t.plane) t.y s t.src x };

    ghost low = { λ t l. t.src };

    ghost given = { λ t l len. LumaPixels l (seen t.plane) × (t.y < l.h) × (t.src + l.cw ≤ len) };

    type Lerped = [f32; 4];

    ghost lerped = { λ t l s i c. (k : ℕ) → k < l.rh → get_or c k nan ≡ across_to l (cell_at s t.src) (i * l.rh + k) };

    fn pixel(self, layout: Layout, s: &[f32], x: usize) -> f32 {
        let cells = across_pixel(layout, s, self.src, x);
        self.luma(layout, x) - cells
    }

    fn one(self, layout: Layout, s: &[f32], x: usize) -> f32 {
        let v = taps::lerp(s[self.src + x], s[self.src + (x + 1)], 0.0);
        self.luma(layout, x) - v
    }

    fn pairs(self, layout: Layout, s: &[f32], i: usize) -> Pairs {
        let p = pairs_at(s, self.src, i);
        let y = self.lumas(layout, 2 + 2 * i);
        Pairs {
            left: less(lefts(y), p.left),
            right: less(rights(y), p.right),
        }
    }

    fn lerp(self, layout: Layout, phases: [Phase; 4], s: &[f32], i: usize) -> [f32; 4] {
        cell_at(layout, s, self.src, phases, i)
    }

    fn in_cell(self, layout: Layout, s: &[f32], cell: &[f32; 4], i: usize, k: usize) -> f32 {
        self.luma(layout, i * layout.rh + k) - cell[k]
    }

    ghost keeps = { λ t l len o g. detail_keeps l o (seen t.plane) t.y t.src };

    ghost lerped_keeps = { λ t l len xs ys i c o g h e p. across_keeps l o t.src xs ys i c h e p };

    ghost within = { λ t l len g. detail_within t.src l.cw len g.2 };
}

// Inner: the detail of row y from luma's row of cells, to its place in scratch.
pub fn detail_row(layout: Layout, plane: Plane<'_>, y: usize, s: &mut [f32])
    requires { LumaPixels layout (seen plane) × (y < layout.h) × (scratch_need layout ≤ length s.old) }
    ensures { s.new ≡ detail_line layout (seen plane.entry) y s.old }
{
    let src = column_at(layout, RowOfCells::Samples);
    let line = Detail { plane, y, src };
    line_row(layout, line, s, Window::DETAIL * layout.w);
}
