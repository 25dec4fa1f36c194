// Fill to RGB, the original's `fill_ycbcr_interp` on one thread with whole planes: `fill`, public; and `refill`, public, which converts the
// rows near a rectangle of changed cells once more. What they give stands in specs/Fill and specs/Refill, why `fill` turns a call down in
// specs/Tests; chroma rows are linear's or guided_rows', colour is colour_rows'.
#![tactic(auto)]

mod answer;
mod calls;
mod options;
mod refills;
mod rows;

pub use calls::fill;
pub use options::ChromaUpsampling;
pub use refills::refill;
