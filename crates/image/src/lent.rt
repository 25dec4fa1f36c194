// What the calls over a picture are lent: how much scratch they ask for, and the tests of its three planes.
ghost use Rattle.std.specs.Prelude.{◌≡◌, true, false, ◌≤◌, ltb};
ghost use Rattle.image.specs.Picture.{short_plane, bad_planes, planes_seen};
ghost use Rattle.image.specs.Samples.{seen};
ghost use Rattle.image.specs.Scratch.{scratch_need};
ghost use Rattle.image.specs.Limits.{above_any};

use crate::layout::Layout;
use crate::plane::{Plane, Planes};
use crate::samples::bad_plane;

// Inner: refusal 9's test for open, row, fill and the linear and guided planes, whether `len` values of scratch are too few. It is answered
// for every layout: by the time that 8 * w is formed it is known to be at most `len`.
#[tactic(auto, unfolding(crate::specs::Scratch::scratch_need))]
pub fn short_scratch(layout: Layout, len: usize) -> bool
    ensures { result ≡ ltb len (scratch_need layout) }
{
    if laws::product_passes(layout.w, 8, len) {
        return true;
    }
    laws::product_passes(layout.cw, 32, len - 8 * layout.w)
}

impl Plane<'_> {
    // Inner: refusal 7's test, whether the plane is too short for h rows of w samples, or its stride for one.
    #[tactic(auto, unfolding(crate::specs::Picture::short_plane))]
    pub fn is_short(self, layout: Layout, w: usize, h: usize) -> bool
        ensures { result ≡ short_plane layout w h (seen self.entry) }
    {
        bad_plane(layout.sample_bytes, w, h, self.stride, self.bytes.len())
    }
}

// Inner: refusal 7's test for the three planes of a picture: luma's has w by h samples, those of Cb and Cr have cw by ch.
#[tactic(auto, unfolding(crate::specs::Picture::bad_planes, crate::specs::Picture::short_plane))]
pub fn bad_planes(layout: Layout, planes: Planes<'_>) -> bool
    ensures { result ≡ bad_planes layout (planes_seen planes.entry) }
{
    let short_y = planes.y.is_short(layout, layout.w, layout.h);
    let short_cb = planes.cb.is_short(layout, layout.cw, layout.ch);
    let short_cr = planes.cr.is_short(layout, layout.cw, layout.ch);
    short_y || short_cb || short_cr
}

// Inner: refusal 17's test for the three planes of a picture that passes 7's.
#[tactic(auto, unfolding(crate::specs::Limits::above_any, crate::specs::Picture::bad_planes))]
pub fn above_planes(layout: Layout, planes: Planes<'_>) -> bool
    requires { (1 ≤ layout.sample_bytes) × (layout.sample_bytes ≤ 2)
        × (bad_planes layout (planes_seen planes) ≡ false) }
    ensures { result ≡ above_any layout (planes_seen planes.entry) }
{
    let above_y = crate::limits::plane_above(layout, planes.y, layout.w, layout.h);
    let above_cb = crate::limits::plane_above(layout, planes.cb, layout.cw, layout.ch);
    let above_cr = crate::limits::plane_above(layout, planes.cr, layout.cw, layout.ch);
    above_y || above_cb || above_cr
}
