// The whole input: three images one after another, nothing behind the last, and sides that make a picture.
ghost use Rattle.std.specs.Prelude.{◌≡◌};
ghost use Rattle.netpbm.specs.Inner.Reading.{reading_of};

use crate::pgm::{first_image, image_after};
use crate::sizes::{layout_of, no_ratio};
use image::Layout;
use laws::Refusal;

// What was read: the layout, and where in the input the rows of Y, Cb and Cr begin.
#[derive(Clone, Copy, PartialEq, Eq, Debug)]
pub struct Reading {
    pub layout: Layout,
    pub y: usize,
    pub cb: usize,
    pub cr: usize,
}

impl Reading {
    // How many bytes the longest input has that document 01 has the program take.
    pub const LONGEST: usize = 49_152;
}

// Inner: what the input holds. Every input is answered, and the first reason to turn one down, in document 01's order, is the one given.
#[tactic(auto, using(crate::proofs::Whole::read_long, crate::proofs::Whole::y_refused, crate::proofs::Fields::given))]
pub fn read(input: &[u8]) -> Result<Reading, Refusal>
    ensures { result ≡ reading_of input.now }
{
    if Reading::LONGEST < input.len() {
        return Err(Refusal::TooLarge);
    }
    let y = first_image(input)?;
    let cb = image_after(input, y)?;
    let cr = image_after(input, cb)?;
    let layout = layout_of(y, cb, cr);
    laws::first([
        (cr.end < input.len(), Refusal::BadHeader),
        (layout.bad_size(), Refusal::BadSize),
        (no_ratio(layout), Refusal::BadChroma),
    ])?;
    Ok(Reading {
        layout,
        y: y.rows,
        cb: cb.rows,
        cr: cr.rows,
    })
}
