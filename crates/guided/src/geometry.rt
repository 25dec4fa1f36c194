// What the guided reconstruction keeps of a layout, and the constant of its slopes.
use image::Range;
use taps::Phase;

// A picture's size, ratios and chroma size, the phase of each pixel of a cell, and the range, on which no row depends. Phases past the ratio
// are not left and have fraction 0, so that a state has one form and can be compared bit for bit.
#[derive(Clone, Copy)]
pub struct Geometry {
    pub w: usize,
    pub h: usize,
    pub rh: usize,
    pub rv: usize,
    pub cw: usize,
    pub ch: usize,
    pub phases: [Phase; 4],
    pub range: Range,
}

impl Geometry {
    // Added to luma's variance, in 8-bit units squared, so that flat regions don't turn luma noise into chroma.
    pub const EPSILON: f32 = 16.0;
}
