// What the test programs share. Each of them replays a stored list of calls, a line for each, and writes a line with the call's answer
// and a sum of what it left; the lists and the lines that must come of them are written by the scripts oracle/*-cases.
//
// A line is filled by `input` and read by `words` (its numbers) and `lines` (its layout), planes are grown or spelled by `planes`, what a
// call left is summed by `checksums`, and `answer_lines` writes the line. None of it is promised to anyone: contracts say only what keeps it
// safe.
#![tactic(auto)]

mod answer_lines;
mod checksums;
mod floats;
mod input;
mod lines;
mod planes;
mod words;

pub use answer_lines::{number, write_line};
pub use checksums::{
    ScratchSums, added, low, scratch_fault, scratch_sums, sum_bytes, sum_floats, sum_numbers,
    sum_values,
};
pub use floats::{bits, float};
pub use input::{LINES, read_line};
pub use lines::{kind, layout, numerator, range, range_of, scratch_part, siting};
pub use planes::{
    Buffers, Shape, front, grow, grown, grown_held, large_buffer, plane, spelled_plane,
};
pub use words::{byte, eight, long, size, value, word};
