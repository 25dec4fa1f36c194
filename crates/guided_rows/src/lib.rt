// Guided rows over scratch, the original's `GuidedRows::row`: the chroma rows that a picture row needs are caught up with, then the row
// itself is made. `reader` calls `row_steps` with its own counters; `guided_plane` and `fill`, which go down all rows, call
// `guided_step`. What scratch holds afterwards is said in guided's specs/Scratch and in specs/CatchingUp.
#![tactic(auto)]

mod steps;

pub use steps::{catch_up, guided_step, row_steps};
