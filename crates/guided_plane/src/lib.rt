// A whole chroma plane guided by luma, the original's `reconstruct` with its guided rows: `guided_plane`, public. Its definition and its
// refusals stand in specs/Plane; the rows themselves are guided_rows'.
#![tactic(auto)]

mod plane;

pub use plane::guided_plane;
