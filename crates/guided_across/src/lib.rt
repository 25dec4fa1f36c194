// A chroma row across: document 01's "cell luma" and "across, (left + middle) + right", in the original's `GuidedRows` (src/jpeg/resample.rs).
//
// `horizontal` puts the row's cells, their sums of three neighbours and the sums of squares and of products into the window's buffers.
// The modules go by steps: luma and byte_cells make cell luma, sums the rows of sums. guided's specs/Scratch says what `horizontal` leaves.
#![tactic(auto)]

mod across;
mod byte_cells;
mod luma;
mod sums;

pub use across::horizontal;
