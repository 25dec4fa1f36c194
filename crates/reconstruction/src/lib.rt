// The public crate: document 01's calls and their types, and nothing else but a reader's row as RGB. The chroma row by `open`, `seek` and
// `row`, the same row as colour by `rgb_row`, one whole chroma plane three ways, the fill to RGB and again of the rows near a change, and the
// colour of one pixel. What each promises stands at its own definition in the crate named here.
#![tactic(auto)]

pub use fill::{ChromaUpsampling, fill, refill};
pub use guided::{Geometry, Reader};
pub use guided_plane::guided_plane;
pub use image::{Layout, Plane, Planes, Range, Rectangle};
pub use kernels::{Rgb, YcbcrKernel, ycbcr_frac_to_rgb8, ycbcr_to_rgb8_fixed16};
pub use laws::{Axis, Refusal, Siting};
pub use linear::linear_plane;
pub use reader::{open, row, seek};
pub use rgb_rows::{rgb_row, rgb_row_answer};
pub use taps::Phase;
pub use upsample::triangular_plane;
