// Colours of test strips, over the public crate and its promises alone: `patch_mean`, the mean colour of a rectangle of an RGB picture,
// `chart_reading`, the shade of a chart and the mix of two neighbours that are nearest to it, and `blend_row`, a row between two pictures
// from their readers.
//
// What they give and why they turn a call down stands in specs/Patches, specs/Charts and specs/Blends, what follows from that in
// specs/PatchClaims, specs/ChartClaims and specs/BlendClaims. Pictures are rows of three bytes a pixel, one behind another, as `fill` leaves
// them, and as the rows of a blend are when each is lent its place in one buffer.
#![tactic(auto)]

mod blend;
mod mix;
mod patch;
mod shade;
mod sums;

pub use blend::blend_row;
pub use patch::{Patch, Patched, patch_mean};
pub use shade::{Between, ChartReading, chart_reading};
