// One row of RGB bytes from a row of luma and the reconstructed chroma of that row: the inner loops of the original's `fill_ycbcr_interp`
// in src/convert.rs. The crate `kernels` computes the colour of one pixel, `kernel_blocks` that of sixteen.
//
// `colour_row` serves fill. It takes a row by blocks of sixteen where its kernel has a block (`kinds`, and loops of its own from `blocks`), and
// otherwise pixel by pixel (`pixels`); both give the same bytes, those of `ranged_row` in specs/Inner/Colours.
#![tactic(auto)]

mod blocks;
mod kinds;
mod lent;
mod pixels;
mod rows;
mod samples;

pub use lent::LentRow;
pub use rows::colour_row;
