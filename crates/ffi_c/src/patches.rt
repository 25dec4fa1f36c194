// The mean colour of a rectangle, for C, exported.
ghost use Rattle.std.specs.Prelude.{◌≡◌};
ghost use Rattle.colorimetry.specs.Patches.{patch_call, PatchGiven};
ghost use Rattle.ffi.specs.Patches.{as_rectangle, chroma_patch, ReadPatch};

use ffi::{ChromaPatch, ChromaRectangle};

// `patch_mean`: the mean of the pixels that a rectangle and a picture share.
#[unsafe(no_mangle)]
pub extern "C" fn chroma_patch(
    rectangle: ChromaRectangle,
    w: usize,
    h: usize,
    rgb: &[u8],
) -> ChromaPatch
    ensures { ReadPatch (PatchGiven (patch_call (as_rectangle rectangle) w h rgb.now)) result }
{
    ffi::chroma_patch(rectangle, w, h, rgb)
}
