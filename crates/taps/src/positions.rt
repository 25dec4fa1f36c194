// Where an output sits among the chroma cells, and how far between two of them.
ghost use Rattle.std.specs.Prelude.{◌≡◌, ◌*◌, ◌≤◌, ◌<◌};
ghost use Rattle.laws.specs.Axes.{plain};
ghost use Rattle.taps.specs.Taps.{lerp_of, fraction_of, on_cell, spot_at, sited_at, tap_on};
ghost use Rattle.taps.specs.Inner.Taps.{TapGiven};

use laws::{Axis, Siting};

// Two cells, and how far an output lies on the way from i0 to i1.
#[derive(Clone, Copy)]
pub struct Tap {
    pub i0: usize,
    pub i1: usize,
    pub f: f32,
}

// Inner: what lies the part f of the way from a to b, in three roundings. Another order of operations would round otherwise.
pub fn lerp(a: f32, b: f32, f: f32) -> f32
    ensures { result ≡ lerp_of a b f }
{
    a + f * (b - a)
}

// Inner: k / d by one division. Both fit sixteen bits, so that their casts, by `as`, are exact: TryFrom would have an error that can't be.
pub fn fraction(k: usize, d: usize) -> f32
    requires { (k < 65536) × (d < 65536) }
    ensures { result ≡ fraction_of k d }
{
    f32::from(k as u16) / f32::from(d as u16)
}

// The tap of an output that takes cell i alone.
fn on_cell(i: usize) -> Tap
    ensures { result ≡ tap_on (on_cell i) }
{
    Tap {
        i0: i,
        i1: i,
        f: 0.0,
    }
}

// The tap of an output that lies m / d cells past the first of len: the last cell alone where it lies at or past that.
fn spot_at(m: usize, d: usize, len: usize) -> Tap
    requires { (0 < d) × (d < 65536) × (0 < len) }
    ensures { result ≡ tap_on (spot_at m d len) }
{
    let cell = m / d;
    if len - 1 <= cell {
        return on_cell(len - 1);
    }
    Tap {
        i0: cell,
        i1: cell + 1,
        f: fraction(m % d, d),
    }
}

// The tap of output o over len cells, num of them to den outputs, where there are fewer cells than outputs.
//
// Centred it lies at ((2o + 1) * num - den) / 2den cells. That is below 0 before the middle of the first cell, so the sign is looked at
// before the difference. Co-sited it lies at o * num / den, never below 0.
fn sited_at(siting: Siting, num: usize, den: usize, len: usize, o: usize) -> Tap
    requires { (num ≤ 4) × (0 < den) × (den ≤ 4) × (0 < len) × (o ≤ 8192) }
    ensures { result ≡ tap_on (sited_at siting num den len o) }
{
    match siting {
        Siting::Centred => {
            let n = (2 * o + 1) * num;
            if n < den {
                return on_cell(0);
            }
            spot_at(n - den, 2 * den, len)
        }
        Siting::CoSited => spot_at(o * num, den, len),
    }
}

// Inner: the tap of output o over len cells, of which the axis has `axis.num` to r outputs.
pub fn tap_at(axis: Axis, r: usize, len: usize, o: usize) -> Tap
    requires { (axis.num ≤ r) × (0 < r) × (r ≤ 4) × (0 < len) × (o ≤ 8192) × (axis.num ≡ r → o < len) }
    ensures { TapGiven axis r len o result }
{
    if axis.num == r {
        return on_cell(o);
    }
    let siting = axis.siting;
    sited_at(siting, axis.num, r, len, o)
}

// Inner: the tap of output o over len cells at ratio r on a plain axis, as the guided calls take it down.
pub fn plain_tap(r: usize, len: usize, o: usize) -> Tap
    requires { (0 < r) × (r ≤ 4) × (0 < len) × (o ≤ 8192) × (o < len * r) }
    ensures { TapGiven plain r len o result }
{
    tap_at(Axis::PLAIN, r, len, o)
}
