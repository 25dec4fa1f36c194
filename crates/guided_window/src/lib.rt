// The window of the original's `GuidedRows` (src/jpeg/resample.rs): three chroma rows that scratch holds, and the smallest steps over them.
//
// It gives where each row buffer begins, a cell's neighbours with edges repeated, and a plane's samples as floats. The whole of scratch
// is laid out by guided's specs/Scratch, which `row_at` follows; guided_across and guided_down fill the window, guided_pixels reads it.
#![tactic(auto)]

mod buffers;
mod neighbours;
mod samples;

pub use buffers::{Buffer, Window, buffer_at, row_at, window_at};
pub use neighbours::{next, prev};
pub use samples::{sample_at, whole_at};
