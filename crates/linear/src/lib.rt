// Chroma by linear interpolation, 'Linear' of document 01: the original's `Linear`, and `reconstruct` with it, in src/jpeg/resample.rs.
//
// `linear_plane` is public; `linear_row` gives fill its rows, and `store_row` rounds finished rows for the guided plane too. Positions,
// taps and lerp stand in the crate `taps`, what a linear sample is in specs/Linear, how near it is to the exact value in specs/Bound.
#![tactic(auto)]

mod across;
mod cycles;
mod down;
mod plane;
mod rounded;
mod rows;
mod sitings;
mod twos;

pub use plane::{linear_plane, linear_row};
pub use rounded::store_row;
