// Chroma by triangular weights in whole numbers, 'Triangular' of document 01: `triangular` of the original's src/jpeg/upsample.rs.
//
// `triangular_plane` is public. A row is written by `down` at ratio (1,2) and by `across` at (2,1) and (2,2). What a sample is stands
// in specs/Weights, for one axis, and specs/Triangular, for both and the whole plane.
#![tactic(auto)]

mod across;
mod answer;
mod axes;
mod down;
mod plane;
mod rows;
mod sums;
mod weights;

pub use plane::triangular_plane;
