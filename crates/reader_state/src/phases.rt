// The phases of a geometry: made from a layout, and compared bit for bit.
ghost use Rattle.std.specs.Prelude.{◌≡◌, ◌≤◌, ◌<◌};
ghost use Rattle.taps.specs.Taps.{phase_at};
ghost use Rattle.guided.specs.Calls.{geometry_of, same_phase, bad_phases};

use guided::Geometry;
use image::Layout;
use taps::Phase;

// Inner: the geometry that open keeps of a layout, its phases among it.
#[tactic(auto, unfolding(guided::specs::Calls::geometry_of))]
pub fn geometry_of(layout: Layout) -> Geometry
    requires { layout.rh ≤ 4 }
    ensures { result ≡ geometry_of layout }
{
    let phases = taps::phases_of(layout.rh);
    let range = layout.range;
    Geometry {
        w: layout.w,
        h: layout.h,
        rh: layout.rh,
        rv: layout.rv,
        cw: layout.cw,
        ch: layout.ch,
        phases,
        range,
    }
}

// Whether two phases are the same, their fractions bit for bit.
#[tactic(auto, unfolding(guided::specs::Calls::same_phase))]
fn same_phase(a: Phase, b: Phase) -> bool
    ensures { result ≡ same_phase a b }
{
    a.left == b.left && fround::same_float(a.f, b.f)
}

// Whether p is phase k of ratio r.
fn phase_is(p: Phase, r: usize, k: usize) -> bool
    requires { (r ≤ 4) × (k < 4) }
    ensures { result ≡ same_phase p (phase_at r k) }
{
    same_phase(p, taps::phase_at(r, k))
}

// Inner: whether a phase is another than those that open leaves, the unused ones too.
#[tactic(auto, unfolding(guided::specs::Calls::bad_phases))]
pub fn bad_phases(g: Geometry) -> bool
    requires { g.rh ≤ 4 }
    ensures { result ≡ bad_phases g }
{
    let r = g.rh;
    let p = g.phases;
    !(phase_is(p[0], r, 0) && phase_is(p[1], r, 1) && phase_is(p[2], r, 2) && phase_is(p[3], r, 3))
}
