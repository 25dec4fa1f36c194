// Part of a picture, and refusal 19's test for a rectangle of chroma cells.
ghost use Rattle.std.specs.Prelude.{◌≡◌};
ghost use Rattle.image.specs.Rectangles.{is_empty, past_cells};

use crate::layout::Layout;
use laws::sum_passes;

// A rectangle: its first column and row, and its sides. The call that takes one says what is counted.
#[derive(Clone, Copy, PartialEq, Eq, Debug)]
pub struct Rectangle {
    pub left: usize,
    pub top: usize,
    pub width: usize,
    pub height: usize,
}

impl Rectangle {
    // The greatest end, across and down, that a rectangle of pixels may have.
    pub const END: usize = 65_535;
}

impl Rectangle {
    // Inner: whether it has no cell.
    #[tactic(auto, unfolding(crate::specs::Rectangles::is_empty))]
    pub fn is_empty(self) -> bool
        ensures { result ≡ is_empty self }
    {
        self.width == 0 || self.height == 0
    }

    // Inner: refusal 19's test for chroma cells, whether one of them lies outside the chroma plane. It is answered for every number; an empty
    // rectangle has no cell, wherever it lies.
    #[tactic(auto, unfolding(crate::specs::Rectangles::past_cells))]
    pub fn past_cells(self, layout: Layout) -> bool
        ensures { result ≡ past_cells layout self }
    {
        let across = sum_passes(self.left, self.width, layout.cw);
        let down = sum_passes(self.top, self.height, layout.ch);
        !self.is_empty() && (across || down)
    }
}
