// A chroma row down: document 01's "down, mean = ..", the slope, and the least and greatest samples of the 3 by 3 cells round each cell.
//
// `finish`, named as in the original's `GuidedRows` (src/jpeg/resample.rs), puts these rows into the window's buffers. The modules slopes,
// slope_rows and slope_pairs read what guided_across left; extremes and nines read the plane. guided's specs/Scratch says what `finish` leaves.
#![tactic(auto)]

mod extremes;
mod finishing;
mod neighbours;
mod nines;
mod picks;
mod slope_blocks;
mod slope_pairs;
mod slope_rows;
mod slopes;

pub use finishing::finish;
