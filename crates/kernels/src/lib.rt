// The colour of one pixel: the kernels of the original's src/convert.rs and document 01's section of that name, after ITU-T T.871.
//
// `ycbcr_frac_to_rgb8` and `ycbcr_to_rgb8_fixed16` are public: they look at their arguments and answer an `Rgb` or why there is none. The kernels behind them,
// which owe that look to their callers, are for colour_rows. Sixteen pixels at a time are in kernel_blocks; specs/T871 and specs/Kernels
// have the formulas.
#![tactic(auto)]

mod bytes;
mod calls;
mod entries;
mod exact;
mod fixed;
mod kernel;
mod offsets;
mod studio;
mod tables;

pub use bytes::Rgb;
pub use calls::{ycbcr_frac_to_rgb8, ycbcr_to_rgb8_fixed16};
pub use exact::{Multiplier, ycbcr_frac_to_rgb8_8bit, ycbcr_frac_to_rgb8_at};
pub use fixed::ycbcr_to_rgb8_fixed;
pub use kernel::YcbcrKernel;
pub use offsets::Bias;
pub use studio::{studio_chroma, studio_green, ycbcr_frac_to_rgb8_studio};
pub use tables::{
    Raise, blue_entry, blue_raised, green_cb_entry, green_cb_raised, green_cr_entry,
    green_cr_raised, red_entry, red_raised,
};
