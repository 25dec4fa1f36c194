// The state of a reader of guided rows: how its geometry, its counters and the state itself are made, and the test behind refusal 1, which
// turns away a state that open, seek and row never leave. The definitions stand in guided's specs/Calls; open, seek and row themselves are
// reader's.
#![tactic(auto)]

mod phases;
mod state;

pub use phases::geometry_of;
pub use state::{Counters, bad_state, done_counters, fresh_counters, reader_at, reader_layout};
