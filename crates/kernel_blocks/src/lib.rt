// Sixteen pixels at a time: document 01's "blocks of sixteen pixels, three colour rows each", the original's `rgb_chunk` of src/convert.rs.
//
// `rgb_block`, `studio_block` and `fixed_block` give the bytes that the kernels of the crate kernels give, pixel by pixel, in forms that compile to
// wide instructions; `put_pixel`, `put_block` and `put_words` store pixels. colour_rows puts rows together from them.
// specs/Inner/Blocks says what a block holds, specs/Stores what stored pixels leave in a slice.
#![tactic(auto)]

mod chroma_offsets;
mod doubts;
mod exact;
mod fixed;
mod limits;
mod stores;
mod studio;
mod studio_blocks;
mod words;

pub use exact::rgb_block;
pub use fixed::fixed_block;
pub use stores::{Block, put_block, put_pixel};
pub use studio_blocks::studio_block;
pub use words::put_words;
