// The samples of a plane, by row and column, as whole numbers and as floats.
ghost use Rattle.std.specs.Prelude.{◌≡◌, false, ◌<◌};
ghost use Rattle.laws.specs.Floats.{f32};
ghost use Rattle.image.specs.Inner.Tests.{Sound};
ghost use Rattle.image.specs.Samples.{sample_at, seen};
ghost use Rattle.image.specs.Picture.{short_plane};

use image::{Layout, Plane};

// Inner: the sample in column x of row y of a plane of w columns and h rows, as a whole number.
#[tactic(auto, using(crate::proofs::Windows::whole_inside))]
pub fn whole_at(layout: Layout, plane: Plane<'_>, w: usize, h: usize, x: usize, y: usize) -> u16
    requires { Sound layout × (short_plane layout w h (seen plane) ≡ false) × (x < w) × (y < h) }
    ensures { result ≡ sample_at layout.sample_bytes (seen plane.entry) y x }
{
    image::row_sample(plane, layout.sample_bytes, y, x)
}

// Inner: the sample in column x of row y of a plane of w columns and h rows, as a float. Samples have sixteen bits, so that none is rounded.
pub fn sample_at(layout: Layout, plane: Plane<'_>, w: usize, h: usize, x: usize, y: usize) -> f32
    requires { Sound layout × (short_plane layout w h (seen plane) ≡ false) × (x < w) × (y < h) }
    ensures { result ≡ f32 (sample_at layout.sample_bytes (seen plane.entry) y x) }
{
    fround::whole(u32::from(whole_at(layout, plane, w, h, x, y)))
}
