// Sixteen samples of a row at a time.
ghost use Rattle.std.specs.Prelude.{◌≡◌, ℕ, ◌+◌, ◌*◌, ◌≤◌, ◌<◌, length, get_or};
ghost use Rattle.image.specs.Samples.{sample_of, sample_at, place, seen};

use crate::plane::Plane;
use crate::samples::sample;
use lanes::Lanes;

// The sixteen samples from byte `at` on. Their size is a constant in the loop, so that they compile to loads of many. It is a loop, since the
// check infers no contract for a closure inside a function with a const parameter.
fn block<const BYTES: usize>(bytes: &[u8], at: usize) -> [u16; Lanes::PIXELS]
    requires { (1 ≤ BYTES) × (BYTES ≤ 2) × (at + 16 * BYTES ≤ length bytes.now) }
    ensures { (k : ℕ) → k < 16 → get_or result k 0 ≡ sample_of BYTES bytes.now (at + k * BYTES) }
{
    let mut v = [0u16; Lanes::PIXELS];
    for k in 0..Lanes::PIXELS {
        v[k] = sample(bytes, BYTES, at + k * BYTES);
    }
    v
}

// Inner: the samples of a row of a plane in the sixteen columns from x on.
pub fn row_block(
    plane: Plane<'_>,
    sample_bytes: usize,
    row: usize,
    x: usize,
) -> [u16; Lanes::PIXELS]
    requires { (1 ≤ sample_bytes) × (sample_bytes ≤ 2) × (place sample_bytes plane.stride row x + 16 * sample_bytes ≤ length plane.bytes.now) }
    ensures { (k : ℕ) → k < 16 → get_or result k 0 ≡ sample_at sample_bytes (seen plane.entry) row (x + k) }
{
    let at = row * plane.stride + x * sample_bytes;
    if sample_bytes == 1 {
        return block::<1>(plane.bytes, at);
    }
    block::<2>(plane.bytes, at)
}
