// What the picture program of document 01 reads and writes: three Netpbm PGM images in, a PPM's header or the line of a refusal out.
//
// `read` gives the layout that three images make and where the rows of each begin, or why it doesn't; `ppm_header` and
// `refusal_line` give the lines. What is read and turned down is defined in specs/Reading, over one image in specs/Images; what is
// written, in specs/Lines. The crate `picture` makes one call of it.
#![tactic(auto)]

mod ascii;
mod lines;
mod pgm;
mod reading;
mod scan;
mod sizes;

pub use lines::{Line, ppm_header, refusal_line};
pub use reading::{Reading, read};
