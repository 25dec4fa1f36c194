// How the pixels of a cell lie across it, and the four phases that a reader's geometry keeps.
//
// The ten fractions of ratios 1 to 4 are literals, so that whoever checks them with a pencil meets no division. specs/TenFractions lists them.
ghost use Rattle.std.specs.Prelude.{◌≡◌, true, false, ◌≤◌, ◌<◌};
ghost use Rattle.taps.specs.Taps.{phase_of, phase_at, phases_of};

// How a pixel of a cell goes across: from the left neighbour to its own cell, or from its own to the right one, and how far. It is a struct,
// as document 01 has it, and both sides have the fraction.
#[derive(Clone, Copy)]
pub struct Phase {
    pub left: bool,
    pub f: f32,
}

// The part f of the way from the left neighbour to the pixel's own cell.
fn from_left(f: f32) -> Phase
    ensures { result ≡ record { left = true; f = f } }
{
    Phase { left: true, f }
}

// The part f of the way from the pixel's own cell to the right neighbour.
fn to_right(f: f32) -> Phase
    ensures { result ≡ record { left = false; f = f } }
{
    Phase { left: false, f }
}

// Inner: the phase of pixel k of a cell at ratio r. At ratio 1 the cell is its pixel.
//
// Ratio 2 has 3/4 from the left and 1/4; ratio 3 has 4/6 from the left, 0 and 2/6, of which the first and the last are no floats, and the
// literals are the floats nearest to them; ratio 4 has 5/8 and 7/8 from the left, 1/8 and 3/8.
pub fn phase_of(r: usize, k: usize) -> Phase
    requires { (k < r) × (r ≤ 4) }
    ensures { result ≡ phase_of r k }
{
    match (r, k) {
        (2, 0) => from_left(0.75),
        (2, _) => to_right(0.25),
        (3, 0) => from_left(0.6666667),
        (3, 1) => to_right(0.0),
        (3, _) => to_right(0.33333334),
        (4, 0) => from_left(0.625),
        (4, 1) => from_left(0.875),
        (4, 2) => to_right(0.125),
        (4, _) => to_right(0.375),
        _ => to_right(0.0),
    }
}

// Inner: phase k of a geometry at ratio r. One past the ratio is no pixel's: it goes from its own cell, fraction 0.
pub fn phase_at(r: usize, k: usize) -> Phase
    requires { (r ≤ 4) × (k < 4) }
    ensures { result ≡ phase_at r k }
{
    if r <= k {
        return to_right(0.0);
    }
    phase_of(r, k)
}

// Inner: the four phases that a geometry of ratio r keeps.
pub fn phases_of(r: usize) -> [Phase; 4]
    requires { r ≤ 4 }
    ensures { result ≡ phases_of r }
{
    [
        phase_at(r, 0),
        phase_at(r, 1),
        phase_at(r, 2),
        phase_at(r, 3),
    ]
}
