// Outputs at ratios that aren't whole, num cells to r outputs with num greater than 1. They go by turns: r outputs over num cells, then the same
// again num cells further, with the same fractions.
ghost use Rattle.std.specs.Prelude.{◌≡◌, ℕ, ◌+◌, ◌*◌, ◌≤◌, ◌<◌, length, get_or};
ghost use Rattle.linear.specs.Inner.AcrossRows.{RowFits, Turning, across_run, cycle_run, Cycled};

use crate::rows::Row;
use std::array::from_fn;
use taps::{Tap, lerp, tap_at};

// The near cells and the fractions of one turn's outputs. An array has four places, and what stands past the ratio is no output's.
#[derive(Clone, Copy)]
pub struct Cycle {
    pub cells: [usize; 4],
    pub parts: [f32; 4],
}

// Inner: the cells and fractions of the r outputs from `from` on.
pub fn cycle_of(row: Row, from: usize) -> Cycle
    requires { (row.axis.num < row.r) × (row.r ≤ 4) × (0 < row.cw) × (from ≤ 1) }
    ensures { Cycled row from result }
{
    let taps: [Tap; 4] = from_fn(|k| tap_at(row.axis, row.r, row.cw, from + k));
    Cycle {
        cells: from_fn(|k| taps[k].i0),
        parts: from_fn(|k| taps[k].f),
    }
}

// The r outputs of a turn over the cells at src, to s from dst on.
#[tactic(auto, using(laws::proofs::Lists::run_none, laws::proofs::Lists::run_end), unfolding(crate::specs::Inner::AcrossRows::cycle_run))]
fn cycle_step(turn: Cycle, s: &mut [f32], src: usize, r: usize, dst: usize)
    requires { (r ≤ 4) × (dst + r ≤ src) × ((k : ℕ) → k < r → src + (get_or turn.cells k 0 + 1) < length s.old) }
    ensures { s.new ≡ cycle_run turn src r dst s.old }
{
    for k in 0..r {
        let i = turn.cells[k];
        s[dst + k] = lerp(s[src + i], s[src + (i + 1)], turn.parts[k]);
    }
}

// n turns from output `from` on, which is the first that isn't below the first cell. It is called with a literal ratio, so that the compiler
// makes a loop for each. A turn whose cells are all its first would be a pair of `across_each`; that loop stays, since it reads a pair's two
// cells once for all outputs between them, and here each output names cells of its own.
// `r` is the row's own.
fn each_cycle(row: Row, r: usize, turn: Cycle, s: &mut [f32], from: usize, n: usize)
    requires { RowFits row (length s.old) × Turning row from n × Cycled row from turn × (r ≡ row.r) }
    ensures { s.new ≡ across_run row from (row.r * n) s.old }
{
    for i in 0..n {
        let src = row.src + row.axis.num * i;
        cycle_step(turn, s, src, r, row.dst + from + r * i);
    }
}

// Inner: n turns from output `from` on, by a loop for each ratio: below 3 no numerator lies between 1 and the ratio.
pub fn across_cycles(row: Row, turn: Cycle, s: &mut [f32], from: usize, n: usize)
    requires { RowFits row (length s.old) × Turning row from n × Cycled row from turn }
    ensures { s.new ≡ across_run row from (row.r * n) s.old }
{
    if row.r == 3 {
        each_cycle(row, 3, turn, s, from, n);
        return;
    }
    each_cycle(row, 4, turn, s, from, n);
}
