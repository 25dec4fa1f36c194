// The calls for C and Rust (include/chroma.h): each translates what it is handed, makes the Rattle call and translates what that gives.
// None has a `requires`: what stands for nothing is answered. What C's structs and numbers stand for is said in specs/Types, what the
// calls promise in specs/Calls.
#![tactic(auto)]

mod blends;
mod charts;
mod filling;
mod patches;
mod pictures;
mod pixels;
mod planes;
mod reading;
mod refilling;
mod replies;
mod types;
mod version;

pub use blends::{ChromaBlendReply, chroma_blend_row};
pub use charts::{ChromaChartReading, chroma_chart_reading};
pub use filling::chroma_fill;
pub use patches::{ChromaPatch, ChromaRectangle, chroma_patch};
pub use pictures::chroma_picture;
pub use pixels::{chroma_exact_pixel, chroma_fixed_pixel};
pub use planes::{chroma_guided_plane, chroma_linear_plane, chroma_triangular_plane};
pub use reading::{chroma_open, chroma_rgb_row, chroma_row, chroma_seek};
pub use refilling::chroma_refill;
pub use types::{
    ChromaLayout, ChromaPhase, ChromaPixel, ChromaReader, ChromaReply, ChromaStrides, ChromaWritten,
};
pub use version::chroma_version;
