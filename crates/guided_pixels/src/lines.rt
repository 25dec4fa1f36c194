// A row of pixels made of rows of cells, whatever it is a row of: what it promises of a pixel, and of a cell's pixels.
ghost use Rattle.std.specs.Prelude.{◌≡◌, List, ℕ, ◌+◌, ◌*◌, ◌≤◌, ◌<◌, Float, length};
ghost use Rattle.image.specs.Inner.Tests.{Sound};
ghost use Rattle.image.specs.declared.layout.Layout.{Layout};
ghost use Rattle.taps.specs.Taps.{phases_of};
ghost use Rattle.guided_pixels.specs.Inner.Across.{pixel_pairs};
ghost use Rattle.guided_pixels.specs.Inner.Lines.{Keeps, Alike};

use crate::pairs::Pairs;
use image::Layout;
use taps::Phase;

// The detail of a picture row, or a component's values in it.
pub trait Line: Copy {
    // Its value in column x, by what scratch holds.
    ghost value: { Self → Layout → List Float → ℕ → Float };

    // Where in scratch begins what it is made of: what lies before may be written.
    ghost low: { Self → Layout → ℕ };

    // What is known of it, scratch having so many values.
    ghost given: { Self → Layout → ℕ → Type 0 };

    // What a cell's pixels are made of.
    type Lerped: Copy;

    // Such of cell i, by what scratch holds.
    ghost lerped: { Self → Layout → List Float → ℕ → Self.Lerped → Type 0 };

    // The value in column x, by the pixel's own phase, where an edge may be met.
    fn pixel(self, layout: Layout, s: &[f32], x: usize) -> f32
        requires { Sound layout × given self layout (length s.now) × (x < layout.w) }
        ensures { result ≡ value self layout s.now x };

    // The value in column x at ratio 1, where each cell is a pixel and its fraction is 0: the right edge isn't met.
    fn one(self, layout: Layout, s: &[f32], x: usize) -> f32
        requires { Sound layout × given self layout (length s.now) × (layout.rh ≡ 1) × (x + 1 < layout.cw) × (x < layout.w) }
        ensures { result ≡ value self layout s.now x };

    // The values in the pixels of eight cells at ratio 2, from cell i + 1 on: no phase and no edge is looked at.
    fn pairs(self, layout: Layout, s: &[f32], i: usize) -> Pairs
        requires { Sound layout × given self layout (length s.now) × (layout.rh ≡ 2) × (i + 10 ≤ layout.cw) × (2 * i + 18 ≤ layout.w) }
        ensures { result ≡ pixel_pairs (value self layout s.now) i };

    // Cell i, which has both neighbours, lerped across in each of its pixels.
    fn lerp(self, layout: Layout, phases: [Phase; 4], s: &[f32], i: usize) -> Self::Lerped
        requires { Sound layout × given self layout (length s.now) × (phases ≡ phases_of layout.rh) × (0 < i) × (i + 1 < layout.cw) }
        ensures { lerped self layout s.now i result };

    // The value in pixel k of cell i, which was lerped across. It is lent, since it would be copied for each pixel.
    fn in_cell(self, layout: Layout, s: &[f32], cell: &Self::Lerped, i: usize, k: usize) -> f32
        requires { Sound layout × given self layout (length s.now) × lerped self layout s.now i cell.now × (k < layout.rh) × (i * layout.rh + layout.rh ≤ layout.w) }
        ensures { result ≡ value self layout s.now (i * layout.rh + k) };

    // What is written before `low` leaves the values, and a cell that was lerped.
    ghost keeps: { (t : Self) (l : Layout) (len : ℕ) → Sound l → given t l len → Keeps (value t l) (low t l) l.w };

    ghost lerped_keeps: { (t : Self) (l : Layout) (len : ℕ) (xs ys : List Float) (i : ℕ) (c : Self.Lerped) → Sound l → given t l len → i * l.rh + l.rh ≤ l.w
        → Alike (low t l) xs ys → lerped t l xs i c → lerped t l ys i c };

    ghost within: { (t : Self) (l : Layout) (len : ℕ) → given t l len → low t l ≤ len };
}
