// The mean colour of a rectangle, for C.
ghost use Rattle.std.specs.Prelude.{◌≡◌};
ghost use Rattle.colorimetry.specs.Patches.{patch_call, patch_reply, PatchGiven};
ghost use Rattle.ffi.specs.Patches.{as_rectangle, chroma_patch, ReadPatch};

use colorimetry::{Patch, Patched};
use image::Rectangle;
use laws::Refusal;

// A rectangle, as `Rectangle` has it.
#[repr(C)]
#[derive(Clone, Copy)]
pub struct ChromaRectangle {
    pub left: usize,
    pub top: usize,
    pub width: usize,
    pub height: usize,
}

// A patch's mean and the whole-number mean. `given` is 1 where there is a mean, and else 0, as are all numbers behind it.
#[repr(C)]
#[derive(Clone, Copy)]
pub struct ChromaPatch {
    pub refusal: u32,
    pub given: u32,
    pub pixels: usize,
    pub mean: [f64; 3],
    pub whole: [u8; 3],
}

// Inner: the rectangle that C's stands for.
#[tactic(auto, unfolding(crate::specs::Patches::as_rectangle))]
pub fn to_rectangle(r: ChromaRectangle) -> Rectangle
    ensures { result ≡ as_rectangle r }
{
    Rectangle {
        left: r.left,
        top: r.top,
        width: r.width,
        height: r.height,
    }
}

// A patch in C's form.
#[tactic(auto, unfolding(crate::specs::Patches::chroma_patch))]
fn from_patched(p: Result<Patched, Refusal>) -> ChromaPatch
    ensures { result ≡ chroma_patch (patch_reply p) }
{
    match p {
        Ok(p) => {
            let (given, mean) = match p.patch {
                Patch::Mean(r, g, b) => (1, [r, g, b]),
                Patch::Nothing => (0, [0.0; 3]),
            };
            let whole = p.whole;
            ChromaPatch {
                refusal: 0,
                given,
                pixels: p.pixels,
                mean,
                whole,
            }
        }
        Err(why) => ChromaPatch {
            refusal: u32::from(why.number()),
            given: 0,
            pixels: 0,
            mean: [0.0; 3],
            whole: [0; 3],
        },
    }
}

// `patch_mean`: the mean of the pixels that a rectangle and a picture share.
pub fn chroma_patch(rectangle: ChromaRectangle, w: usize, h: usize, rgb: &[u8]) -> ChromaPatch
    ensures { ReadPatch (PatchGiven (patch_call (as_rectangle rectangle) w h rgb.now)) result }
{
    from_patched(colorimetry::patch_mean(to_rectangle(rectangle), w, h, rgb))
}
