// The layout that the sides of three images make, with the ratios that they fit.
ghost use Rattle.std.specs.Prelude.{◌≡◌, ◌≤◌};
ghost use Rattle.netpbm.specs.Reading.{fits_both, ratio_for, no_ratio};
ghost use Rattle.netpbm.specs.Inner.HeldInput.{layout_held};

use crate::pgm::{Image, sample_bytes};
use image::{Layout, Range};
use laws::Axis;

// Whether ratio r fits both chroma images along a side of n pixels: each has as many cells, a and b, as n pixels make at that ratio.
fn fits_both(n: usize, a: usize, b: usize, r: usize) -> bool
    ensures { result ≡ fits_both n a b r }
{
    let cells = image::div_ceil(n, r);
    a == cells && b == cells
}

// The smallest ratio that fits both chroma images along a side of n pixels, of which they have a and b cells; 0 where none does. It is a
// number and not an Option, since it goes into the layout (`input_layout` of specs/Reading): refusal 2 is asked of that before 5, which says
// that none does.
#[tactic(auto, using(crate::proofs::Ratios::tried_none, crate::proofs::Ratios::tried_more, crate::proofs::Ratios::tried_here, crate::proofs::Ratios::tried_all))]
fn ratio_for(n: usize, a: usize, b: usize) -> usize
    ensures { result ≡ ratio_for n a b }
{
    for r in 1..=Layout::RATIO {
        if fits_both(n, a, b, r) {
            return r;
        }
    }
    0
}

// Inner: the layout of three images, with the first one's maxval, which is held as 65,536 at most and so fits a layout's type: it is
// cast by `as`, since TryFrom would have an error that can't be. A ratio of 0 in it says that none fits, which `no_ratio` tests.
#[tactic(auto, unfolding(crate::specs::Inner::HeldInput::layout_held))]
pub fn layout_of(y: Image, cb: Image, cr: Image) -> Layout
    requires { y.maxval ≤ 65536 }
    ensures { result ≡ layout_held y cb cr }
{
    let rh = ratio_for(y.w, cb.w, cr.w);
    let rv = ratio_for(y.h, cb.h, cr.h);
    Layout {
        w: y.w,
        h: y.h,
        rh,
        rv,
        cw: cb.w,
        ch: cb.h,
        across: Axis::PLAIN,
        down: Axis::PLAIN,
        sample_bytes: sample_bytes(y.maxval),
        maxval: y.maxval as u32,
        range: Range::Full,
    }
}

// Inner: refusal 5's test for a layout that `layout_of` gave: whether one of its ratios is missing.
#[tactic(auto, unfolding(crate::specs::Reading::no_ratio))]
pub fn no_ratio(layout: Layout) -> bool
    ensures { result ≡ no_ratio layout }
{
    layout.rh == 0 || layout.rv == 0
}
