// The samples of a plane, and the test on its stride and length.
ghost use Rattle.std.specs.Prelude.{◌≡◌, ◌+◌, ◌-◌, ◌*◌, ◌≤◌, ◌<◌, length};
ghost use Rattle.image.specs.Tests.{bad_plane};
ghost use Rattle.image.specs.Samples.{sample_of, sample_at, place, seen};

use crate::plane::Plane;
use laws::product_passes;

// How many rows stand before the last of h rows; none where h is 0.
fn rows_before(h: usize) -> usize
    ensures { result ≡ h - 1 }
{
    h.saturating_sub(1)
}

// Inner: refusal 7's test, for a plane of h rows of w samples whose data has len bytes. It is answered for every number: where the stride
// holds a row, w * sample_bytes is at most the stride and doesn't wrap.
pub fn bad_plane(sample_bytes: usize, w: usize, h: usize, stride: usize, len: usize) -> bool
    ensures { result ≡ bad_plane sample_bytes w h stride len }
{
    if product_passes(w, sample_bytes, stride) {
        return true;
    }
    let row = w * sample_bytes;
    if len < row {
        return true;
    }
    product_passes(rows_before(h), stride, len - row)
}

// Inner: the sample whose first byte stands at `at`; two bytes are little-endian.
#[tactic(auto, unfolding(crate::specs::Samples::sample_of))]
pub fn sample(plane: &[u8], sample_bytes: usize, at: usize) -> u16
    requires { (1 ≤ sample_bytes) × (sample_bytes ≤ 2) × (at + sample_bytes ≤ length plane.now) }
    ensures { result ≡ sample_of sample_bytes plane.now at }
{
    if sample_bytes == 1 {
        u16::from(plane[at])
    } else {
        u16::from_le_bytes([plane[at], plane[at + 1]])
    }
}

// Inner: the sample of a row of a plane in column x.
#[tactic(auto, unfolding(crate::specs::Samples::sample_at))]
pub fn row_sample(plane: Plane<'_>, sample_bytes: usize, row: usize, x: usize) -> u16
    requires { (1 ≤ sample_bytes) × (sample_bytes ≤ 2) × (place sample_bytes plane.stride row x + sample_bytes ≤ length plane.bytes.now) }
    ensures { result ≡ sample_at sample_bytes (seen plane.entry) row x }
{
    sample(
        plane.bytes,
        sample_bytes,
        row * plane.stride + x * sample_bytes,
    )
}
