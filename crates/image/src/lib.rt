// What a call is handed of a picture: its sizes, ratios, sample bytes, maxval and range (`Layout`), its planes (`Planes`), the samples in
// them, and part of it (`Rectangle`). These are the picture fields and `Plane` of the original's src/image.rs, with the tests behind
// refusals 2, 3, 4, 5, 7 and 9 of document 01, and 16, 17, 18, 19 for chroma cells and 21 of document 02.
//
// Every function answers for every number that it can be handed, or says in `requires` what it relies on. What a picture is, a plane's
// samples without padding or surplus, is specs/Picture; the tests stand in specs/Tests in the order of document 01's table, 17's in specs/Limits, 19's
// in specs/Rectangles, 21's in specs/Differences.
#![tactic(auto)]

mod chroma;
mod differences;
mod layout;
mod lent;
mod limits;
mod plane;
mod rectangle;
mod samples;
mod sixteens;

pub use chroma::{Chroma, Components};
pub use differences::other_change;
pub use layout::{Layout, Range, bad_range, div_ceil};
pub use lent::{above_planes, bad_planes, short_scratch};
pub use limits::plane_above;
pub use plane::{Plane, Planes};
pub use rectangle::Rectangle;
pub use samples::{bad_plane, row_sample, sample};
pub use sixteens::row_block;
