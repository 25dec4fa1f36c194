// A whole number as a float.
ghost use Rattle.std.specs.Prelude.{◌≡◌, ◌<◌};
ghost use Rattle.laws.specs.Floats.{f32};

use crate::Rounding;

// Inner: a whole number below 2^23 as a float: put behind the bits of 2^23, where consecutive floats are 1 apart, less 2^23. A cast gives the
// same, but a loop over casts isn't made wide by the compiler.
pub fn whole(n: u32) -> f32
    requires { n < 8388608 }
    ensures { result ≡ f32 n }
{
    f32::from_bits(0x4B00_0000 + n) - Rounding::GRID
}
