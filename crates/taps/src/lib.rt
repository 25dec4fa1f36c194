// Where an output lies between chroma cells: taps, phases, and the lerp between two cells. From the original's src/jpeg/resample.rs.
//
// A tap is for an axis of any length, as linear rows and the way down take it; a phase is for a pixel within its cell, as guided rows
// take it across. The original makes lists of taps, and here a tap is a function of the output. specs/Taps is document 01's 'Geometry'.
#![tactic(auto)]

mod phases;
mod positions;

pub use phases::{Phase, phase_at, phase_of, phases_of};
pub use positions::{Tap, fraction, lerp, plain_tap, tap_at};
