// The mean colour of a rectangle of a picture.
ghost use Rattle.std.specs.Prelude.{◌≡◌, [], ◌∷◌, ◌+◌, ◌*◌, ◌≤◌, ◌<◌};
ghost use Rattle.reconstruction.specs.Refusals.{first};
ghost use Rattle.laws.specs.Rounding.{half_up};
ghost use Rattle.colorimetry.specs.declared.patch.Patch.TheVariants.{Mean};
ghost use Rattle.colorimetry.specs.Patches.{mean_of, shared_of, bad_sides, passes_end, patch_call, patch_tests, patch_reply, PatchGiven};
ghost use Rattle.colorimetry.specs.Inner.Sums.{SumsMost};

use crate::sums::{Sums, area_sums};
use laws::{Refusal, outside, sum_passes};
use reconstruction::{Layout, Rectangle};

// The mean of the pixels that a rectangle and a picture share: red, green and blue; `Nothing` where they share none. It is an enum of its own and
// no Option, since document 01 names that form: 'enum with a Mean case of three f64 and a Nothing case'.
#[derive(Clone, Copy)]
pub enum Patch {
    Mean(f64, f64, f64),
    Nothing,
}

// What `patch_mean` gives where it accepts: the mean, beside it the whole-number mean, and how many pixels it is of. `Nothing` and zeros where
// no pixel is shared: "zeros beside nothing" is document 02's rule. They stand beside `patch` and not in it, since `PatchReply` of specs/Patches
// has these parts, and so has C's struct.
#[derive(Clone, Copy)]
pub struct Patched {
    pub patch: Patch,
    pub whole: [u8; 3],
    pub pixels: usize,
}

// Refusal 2's test, whether a side of the picture is 0 or longer than `Layout::SIDE`.
#[tactic(auto, unfolding(crate::specs::Patches::bad_sides))]
fn bad_sides(w: usize, h: usize) -> bool
    ensures { result ≡ bad_sides w h }
{
    outside(1, Layout::SIDE, w) || outside(1, Layout::SIDE, h)
}

// Refusal 19's test, whether the rectangle's end passes `Rectangle::END`, across or down.
#[tactic(auto, unfolding(crate::specs::Patches::passes_end, crate::specs::Patches::passes))]
fn passes_end(rectangle: Rectangle) -> bool
    ensures { result ≡ passes_end rectangle }
{
    let across = sum_passes(rectangle.left, rectangle.width, Rectangle::END);
    let down = sum_passes(rectangle.top, rectangle.height, Rectangle::END);
    across || down
}

// The lowest refusal of `patch_mean` that applies.
#[tactic(auto, unfolding(crate::specs::Patches::patch_tests))]
fn patch_answer(rectangle: Rectangle, w: usize, h: usize, rgb: &[u8]) -> Result<(), Refusal>
    ensures { result ≡ first (patch_tests (patch_call rectangle w h rgb.now)) }
{
    laws::first([
        (bad_sides(w, h), Refusal::BadSize),
        (passes_end(rectangle), Refusal::BadRectangle),
        (
            laws::volume_passes(w, h, 3, rgb.len()),
            Refusal::ShortOutput,
        ),
    ])
}

// How many of the `len` columns, or rows, from `start` on lie before `side`.
#[tactic(auto, unfolding(crate::specs::Patches::shared_of))]
fn shared(start: usize, len: usize, side: usize) -> usize
    requires { start + len ≤ 65535 }
    ensures { (result ≡ shared_of start len side) × (result ≤ side) }
{
    side.min(start + len).saturating_sub(start)
}

// "the exact whole sum, made a float, divided once by the count": both are below 2^53, so that neither cast rounds. They are by
// `as`: no From, since a float doesn't hold every u64 or usize.
fn mean_of(sum: u64, count: usize) -> f64
    requires { (sum ≤ 17112760320) × (count ≤ 67108864) }
    ensures { result ≡ mean_of sum count }
{
    sum as f64 / count as f64
}

// "A whole-number mean, halves up", from the sum itself. By `as`: no From takes a usize to a u64, and the mean is 255 at most, so that TryFrom
// would have an error that can't be.
fn whole_mean(sum: u64, count: usize) -> u8
    requires { (sum ≤ 255 * count) × (0 < count) × (count ≤ 67108864) }
    ensures { result ≡ half_up sum count }
{
    ((2 * sum + count as u64) / (2 * count as u64)) as u8
}

// The means of the three channels.
fn mean_patch(s: Sums, count: usize) -> Patch
    requires { SumsMost (255 * count) s × (count ≤ 67108864) }
    ensures { result ≡ Mean (mean_of s.r count) (mean_of s.g count) (mean_of s.b count) }
{
    Patch::Mean(
        mean_of(s.r, count),
        mean_of(s.g, count),
        mean_of(s.b, count),
    )
}

// The whole-number means of the three channels.
fn whole_patch(s: Sums, count: usize) -> [u8; 3]
    requires { SumsMost (255 * count) s × (0 < count) × (count ≤ 67108864) }
    ensures { result ≡ half_up s.r count ∷ half_up s.g count ∷ half_up s.b count ∷ [] }
{
    [
        whole_mean(s.r, count),
        whole_mean(s.g, count),
        whole_mean(s.b, count),
    ]
}

// The mean of the pixels that the rectangle shares with a picture of w by h pixels, and beside it the whole-number mean. Refusals 2, 19 and
// 10, in this order.
pub fn patch_mean(rectangle: Rectangle, w: usize, h: usize, rgb: &[u8]) -> Result<Patched, Refusal>
    ensures { PatchGiven (patch_call rectangle w h rgb.now) (patch_reply result) }
{
    patch_answer(rectangle, w, h, rgb)?;
    let n = shared(rectangle.left, rectangle.width, w);
    let m = shared(rectangle.top, rectangle.height, h);
    let pixels = n * m;
    if pixels == 0 {
        return Ok(Patched {
            patch: Patch::Nothing,
            whole: [0; 3],
            pixels: 0,
        });
    }
    let s = area_sums(rgb, 3 * (rectangle.top * w + rectangle.left), 3 * w, n, m);
    Ok(Patched {
        patch: mean_patch(s, pixels),
        whole: whole_patch(s, pixels),
        pixels,
    })
}
