// The reader of guided rows, the original's `GuidedRows` as three public calls over lent planes and scratch: `open` a picture, `seek` a row,
// give a `row`. What they promise is OpenGiven, SeekGiven and RowGiven of guided's specs/Calls; the steps over scratch are guided_rows'.
// The state that a row call leaves, `after_row`, is passed on for a reader's RGB rows.
#![tactic(auto)]

mod checks;
mod copies;
mod opening;
mod rows;
mod seeking;

pub use checks::after_row;
pub use opening::open;
pub use rows::row;
pub use seeking::seek;
