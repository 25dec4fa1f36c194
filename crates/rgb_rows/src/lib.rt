// A reader's row as RGB: `rgb_row` gives what the guided exact fill gives in that row and moves the reader as `row` does, and
// `rgb_row_answer` says beforehand what it would answer. Both are public.
//
// What they promise, and that such a row counts as a row call in the reader's list of demand 3, stands in specs/RgbRows.
#![tactic(auto)]

mod answers;
mod rows;

pub use answers::rgb_row_answer;
pub use rows::rgb_row;
