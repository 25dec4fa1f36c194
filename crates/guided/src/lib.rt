// The theory of the guided reconstruction, the original's `GuidedRows`: what a guided row is ('Guided' of document 01), what open,
// seek and row answer and leave, what scratch holds between them, and demand 3 over every list of calls.
//
// No function is here, only the state that the reader's calls pass round. Look first at specs/Guided, then specs/Calls and
// specs/Events; the code stands in guided_window, guided_across, guided_down, guided_pixels, guided_rows and reader.
#![tactic(auto)]

mod geometry;
mod state;

pub use geometry::Geometry;
pub use state::Reader;
