// Refusal 17's test: whether a sample inside a plane exceeds maxval.
//
// A row's greatest sample is found first and then compared, and bytes and words have a loop each: so both loops compile
// to wide maxima. A loop that stops at the first sample above, or one over both widths, is several times slower.
// They are a function each, too: a trait for both widths, with its two impls, would be longer than the two.
ghost use Rattle.std.specs.Prelude.{◌≡◌, true, false, ◌+◌, ◌*◌, ◌≤◌, max, ltb, length, get_or};
ghost use Rattle.image.specs.Samples.{seen, sample_of};
ghost use Rattle.image.specs.Picture.{short_plane};
ghost use Rattle.image.specs.Limits.{any_of, above};
ghost use Rattle.image.specs.Inner.Limits.{greatest};

use crate::layout::Layout;
use crate::plane::Plane;
use crate::samples::sample;

// The greatest of n one-byte samples, of which the first stands at `at`.
#[tactic(auto, unfolding(crate::specs::Inner::Limits::greatest))]
fn most_byte(plane: Plane<'_>, at: usize, n: usize) -> u8
    requires { at + n ≤ length plane.bytes.now }
    ensures { result ≡ greatest n (λ i. get_or plane.entry.bytes.now (at + i) 0) }
{
    let mut m: u8 = 0;
    for i in 0..n {
        m = m.max(plane.bytes[at + i]);
    }
    m
}

// The greatest of n two-byte samples, likewise.
#[tactic(auto, unfolding(crate::specs::Inner::Limits::greatest))]
fn most_word(plane: Plane<'_>, at: usize, n: usize) -> u16
    requires { at + n * 2 ≤ length plane.bytes.now }
    ensures { result ≡ greatest n (λ i. sample_of 2 plane.entry.bytes.now (at + i * 2)) }
{
    let mut m: u16 = 0;
    for i in 0..n {
        m = m.max(sample(plane.bytes, 2, at + i * 2));
    }
    m
}

// Whether one of n samples exceeds `most`; the first stands at `at`.
fn row_above(plane: Plane<'_>, sample_bytes: usize, at: usize, n: usize, most: u32) -> bool
    requires { (1 ≤ sample_bytes) × (sample_bytes ≤ 2) × (at + n * sample_bytes ≤ length plane.bytes.now) }
    ensures { result ≡ any_of n (λ x. ltb most (sample_of sample_bytes plane.entry.bytes.now (at + x * sample_bytes))) }
{
    if sample_bytes == 1 {
        return most < u32::from(most_byte(plane, at, n));
    }
    most < u32::from(most_word(plane, at, n))
}

// Inner: refusal 17's test for a plane of h rows of w samples: row after row, up to the first that has a sample above maxval. Where maxval is
// the most that a sample holds, no sample is looked at.
pub fn plane_above(layout: Layout, plane: Plane<'_>, w: usize, h: usize) -> bool
    requires { (1 ≤ layout.sample_bytes) × (layout.sample_bytes ≤ 2)
        × (short_plane layout w h (seen plane) ≡ false) }
    ensures { result ≡ above layout w h (seen plane.entry) }
{
    // By `as`: no From takes a u32 to a usize.
    if crate::layout::most(layout.sample_bytes) <= layout.maxval as usize {
        return false;
    }
    for y in 0..h {
        if row_above(
            plane,
            layout.sample_bytes,
            y * plane.stride,
            w,
            layout.maxval,
        ) {
            return true;
        }
    }
    false
}
