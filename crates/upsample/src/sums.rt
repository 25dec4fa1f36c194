// The vertical sum of a cell, by the size of a sample: sums of bytes are weighed in 16 bits, where the compiler computes twice as many at
// once as in 32.
ghost use Rattle.std.specs.Prelude.{◌≡◌, ℕ, ◌+◌, ◌*◌, ◌/◌, ◌≤◌};
ghost use Rattle.upsample.specs.Inner.Pairs.{RowsInside, sums};

use crate::rows::CellRows;

// Inner: a vertical sum of samples of BYTES bytes: three parts of the near row and one of the far, at most MOST.
pub trait Sum: Copy {
    ghost BYTES: { ℕ };

    ghost MOST: { ℕ };

    ghost number: { Self → ℕ };

    // The sum of cell i.
    fn sum(rows: CellRows<'_>, i: usize) -> Self
        requires { RowsInside BYTES (i + 1) rows }
        ensures { (number result ≡ sums BYTES rows.entry i) × (number result ≤ MOST) };

    // Three parts of this sum and one of its neighbour's, divided by 16.
    fn weigh(self, neighbour: Self, bias: u16) -> u16
        requires { (number self ≤ MOST) × (number neighbour ≤ MOST) × (bias ≤ 8) }
        ensures { result ≡ (3 * number self + number neighbour + bias) / 16 };
}

// One byte: at most 4 * 255, so that nothing passes 65,535.
impl Sum for u16 {
    ghost BYTES = { 1 };

    ghost MOST = { 1020 };

    ghost number = { λ x. x };

    #[tactic(auto, unfolding(image::specs::Samples::sample_of))]
    fn sum(rows: CellRows<'_>, i: usize) -> u16 {
        3 * u16::from(rows.bytes[rows.near + i]) + u16::from(rows.bytes[rows.far + i])
    }

    fn weigh(self, neighbour: u16, bias: u16) -> u16 {
        (3 * self + neighbour + bias) >> 4
    }
}

// Two bytes: at most 4 * 65,535. A weighed sum fits 16 bits and is cast by `as`: TryFrom would have an error that can't be.
impl Sum for u32 {
    ghost BYTES = { 2 };

    ghost MOST = { 262140 };

    ghost number = { λ x. x };

    fn sum(rows: CellRows<'_>, i: usize) -> u32 {
        3 * u32::from(rows.near_cell(2, i)) + u32::from(rows.far_cell(2, i))
    }

    fn weigh(self, neighbour: u32, bias: u16) -> u16 {
        ((3 * self + neighbour + u32::from(bias)) >> 4) as u16
    }
}
