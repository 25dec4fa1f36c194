// What the other crates' contracts and proofs are made of: runs written into a slice, refusals, differences, halves up, single precision.
//
// specs/ has the definitions, a file a topic, and proofs/ their laws; specs/Refusals is document 01's 'Reasons for turning a call down'.
// Why a call is turned down stands here with the tests that refusals are put together from, so that a crate above the public one
// needs no inner crate; and the axis of a picture, which layouts and taps both name.
#![tactic(auto)]

mod axes;
mod numbers;
mod refusal;

pub use axes::{Axis, Siting};
pub use numbers::{outside, product_passes, sum_passes, volume_passes};
pub use refusal::{Refusal, first};
