// How the outputs of a row lie between neighbouring cells, by either siting, where a cell has more than one output.
ghost use Rattle.std.specs.Prelude.{◌≡◌, ℕ, ◌≤◌, ◌<◌};
ghost use Rattle.linear.specs.Inner.AcrossRows.{head_of, first_of, part_of, parts_in};

use laws::Siting;
use taps::fraction;

// Inner: how many outputs come before those between cells 0 and 1. Centred they lie before the middle of cell 0; co-sited the first
// output is cell 0 itself.
pub fn head_of(siting: Siting, r: usize) -> usize
    ensures { result ≡ head_of siting r }
{
    match siting {
        Siting::Centred => r / 2,
        Siting::CoSited => 0,
    }
}

// Inner: the first output that isn't below the first cell, where there are more cells than one to the ratio's outputs. Centred the first output
// lies before the middle of cell 0.
pub fn first_of(siting: Siting) -> usize
    ensures { result ≡ first_of siting }
{
    match siting {
        Siting::Centred => 1,
        Siting::CoSited => 0,
    }
}

// How far output k of a pair of cells lies between them.
fn part_at(siting: Siting, r: usize, k: usize) -> f32
    requires { (r ≤ 4) × (k < 4) }
    ensures { result ≡ part_of siting r k }
{
    match siting {
        Siting::Centred => fraction(2 * (r / 2 + k) + 1 - r, 2 * r),
        Siting::CoSited => fraction(k, r),
    }
}

// Inner: the fractions of the outputs between two neighbouring cells at ratio r. An array has four places, and what stands past the ratio
// is no output's.
pub fn parts_of(siting: Siting, r: usize) -> [f32; 4]
    requires { r ≤ 4 }
    ensures { (k : ℕ) → k < 4 → parts_in result k ≡ part_of siting r k }
{
    std::array::from_fn(|k| part_at(siting, r, k))
}
