// C entry points of inner functions, for the comparisons with the original that run outside the gate (oracle/). It is no interface for
// users: `ffi` is.
//
// oracle/sweep rounds every f32 by both functions and by the original, since no public call takes a float to round.
#![tactic(auto)]

ghost use Rattle.std.specs.Prelude.{min};
ghost use Rattle.fround.specs.Inner.Rounding.{Rounded};

use fround::Rounding;

// Inner: fround's rounding by adding the grid, as it is, for oracle/sweep.
#[unsafe(no_mangle)]
pub extern "C" fn chroma_inner_round_clamped_by_grid(x: f32, max: u32) -> u32
    ensures { Rounded (min max Rounding.LIMIT) x result }
{
    fround::round_clamped_by_grid(x, max)
}

// Inner: fround's rounding from the float's bits, as it is, for oracle/sweep.
#[unsafe(no_mangle)]
pub extern "C" fn chroma_inner_round_clamped_by_bits(x: f32, max: u32) -> u32
    ensures { Rounded (min max Rounding.WIDE) x result }
{
    fround::round_clamped_by_bits(x, max)
}
