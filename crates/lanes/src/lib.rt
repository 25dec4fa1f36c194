// Sixteen values at a time, or eight: a block of them is made by value, and stored when all that it is made from was read.
//
// The original leaves this to the compiler, which knows that its slices don't overlap. Here a loop that read and stored in turn would
// not become wide loads and stores, and one over a block by value does. A block is made by `from_fn`, of which proofs/Made has the laws,
// and stored by `copy_from_slice`, of which proofs/Overwritten says that it writes a run (`put` of laws).
#![tactic(auto)]

ghost use Rattle.std.specs.Prelude.{◌≡◌, ◌+◌, ◌≤◌, length, get_or};
ghost use Rattle.std.specs.Float.{nan};
ghost use Rattle.laws.specs.Floats.{f32};
ghost use Rattle.laws.specs.Lists.{put};

mod vectors;

use std::array::from_fn;
pub use vectors::load;

// How much a block has.
#[derive(Clone, Copy)]
pub struct Lanes;

impl Lanes {
    // The chroma cells that a block at ratio 2 lies over: half of PIXELS.
    pub const CELLS: usize = 8;

    // The values of a block, document 01's block length.
    pub const PIXELS: usize = 16;
}

// Inner: stores a block of values in s, from `at` on. A block has any length, a constant where it is called, so that it becomes wide stores.
pub fn put_block<const N: usize>(s: &mut [f32], at: usize, block: [f32; N])
    requires { at + N ≤ length s.old }
    ensures { s.new ≡ put s.old at N (λ k. get_or block.entry k nan) }
{
    s[at..at + N].copy_from_slice(&block);
}

// Inner: stores a block of bytes as floats in s, from `at` on.
pub fn put_bytes(s: &mut [f32], at: usize, block: [u8; Lanes::PIXELS])
    requires { at + 16 ≤ length s.old }
    ensures { s.new ≡ put s.old at 16 (λ k. f32 (get_or block k 0)) }
{
    let floats: [f32; Lanes::PIXELS] = from_fn(|i| fround::whole(u32::from(block[i])));
    put_block(s, at, floats);
}
