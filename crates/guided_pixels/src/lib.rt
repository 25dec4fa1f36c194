// A picture row from the window: document 01's "row y: lerp y, c and a down by the tap, then across by the pixel's phase" and the value.
//
// `guided_row` leaves the finished rows of Cb and Cr in scratch; it is a step of the original's `GuidedRows` (src/jpeg/resample.rs). The
// module columns lerps down, pairs across. What a row of pixels is made of is a type of `lines`: details make luma less what its cells lerp
// to, values the limited values, and rows and twos have the loops of both. guided's specs/Scratch says what is left, specs/Inner/Row in
// which steps.
#![tactic(auto)]

mod columns;
mod details;
mod lines;
mod pairs;
mod row;
mod rows;
mod twos;
mod value_inputs;
mod values;

pub use row::guided_row;
