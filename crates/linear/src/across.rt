// Rows lerped across from cells that lie in scratch behind them. Between two cells the fractions of a ratio repeat, so that a loop with
// constant fractions gives the floats of the taps; taps themselves are computed only at a row's edges, at ratio 1 and in narrow rows. At a
// numerator other than 1 cells and fractions repeat by turns, of which `cycles` has the loop.
ghost use Rattle.std.specs.Prelude.{◌≡◌, ℕ, ◌+◌, ◌*◌, ◌≤◌, ◌<◌, length, get_or};
ghost use Rattle.std.specs.Float.{nan};
ghost use Rattle.laws.specs.Lists.{put};
ghost use Rattle.taps.specs.Taps.{lerp_of};
ghost use Rattle.linear.specs.Inner.AcrossRows.{RowFits, Turning, Pairing, across_run, part_of, parts_in, between_run};

use crate::cycles::{across_cycles, cycle_of};
use crate::rows::Row;
use crate::sitings::{first_of, head_of, parts_of};
use crate::twos::{Twos, across_twos};
use laws::Siting;
use taps::{lerp, tap_at};

// Outputs from, .. from + n - 1 of a row, each by its own tap. This form is for the edges of a row, for ratio 1 and for narrow rows. The
// cells lie behind the outputs, so that no store reaches a cell.
#[tactic(auto, using(taps::proofs::Spots::own_cell, laws::proofs::Lists::run_none, laws::proofs::Lists::run_end), unfolding(crate::specs::Inner::AcrossRows::across_run))]
fn across_taps(row: Row, s: &mut [f32], from: usize, n: usize)
    requires { RowFits row (length s.old) × (from + n ≤ row.w) }
    ensures { s.new ≡ across_run row from n s.old }
{
    let src = row.src;
    for i in 0..n {
        let t = tap_at(row.axis, row.r, row.cw, from + i);
        let i0 = t.i0;
        let i1 = t.i1;
        s[row.dst + from + i] = lerp(s[src + i0], s[src + i1], t.f);
    }
}

// The r outputs between the cell at src and the next, to s from dst on.
#[tactic(auto, using(laws::proofs::Lists::run_none))]
fn put_between(s: &mut [f32], src: usize, r: usize, parts: [f32; 4], dst: usize)
    requires { (r ≤ 4) × (dst + r ≤ src) × (src + 1 < length s.old) }
    ensures { s.new ≡ put s.old dst r
        (λ k. lerp_of (get_or s.old src nan) (get_or s.old (src + 1) nan) (get_or parts k nan)) }
{
    let a = s[src];
    let b = s[src + 1];
    for k in 0..r {
        s[dst + k] = lerp(a, b, parts[k]);
    }
}

// The outputs between each of n pairs of neighbouring cells, r to a pair, by the fractions in `parts`. It is called with a literal ratio, so
// that the compiler makes a loop for each.
fn across_each(s: &mut [f32], src: usize, r: usize, parts: [f32; 4], n: usize, dst: usize)
    requires { (r ≤ 4) × (dst + r * n ≤ src) × (src + (n + 1) ≤ length s.old) }
    ensures { s.new ≡ between_run (parts_in parts) r src n dst s.old }
{
    for i in 0..n {
        put_between(s, src + i, r, parts, dst + r * i);
    }
}

// The outputs between n pairs of neighbouring cells, by a loop for each ratio that has no tap in it. The siting is looked at here, before
// the loops, which serve both.
fn across_between(siting: Siting, s: &mut [f32], src: usize, r: usize, n: usize, dst: usize)
    requires { (1 < r) × (r ≤ 4) × (dst + r * n ≤ src) × (src + (n + 1) ≤ length s.old) × (r ≡ 2 → 8 ≤ n) }
    ensures { s.new ≡ between_run (part_of siting r) r src n dst s.old }
{
    let parts = parts_of(siting, r);
    if r == 2 {
        across_twos(s, src, parts, n, dst);
        return;
    }
    if r == 3 {
        across_each(s, src, 3, parts, n, dst);
        return;
    }
    across_each(s, src, 4, parts, n, dst);
}

// A row in three parts: `head` outputs before the first pair of cells, those between n pairs, r to a pair, then the rest.
fn across_parts(row: Row, s: &mut [f32], head: usize, n: usize)
    requires { RowFits row (length s.old) × Pairing row head n }
    ensures { s.new ≡ across_run row 0 row.w s.old }
{
    let rest = head + row.r * n;
    across_taps(row, s, 0, head);
    across_between(row.axis.siting, s, row.src, row.r, n, row.dst + head);
    across_taps(row, s, rest, row.w - rest);
}

// A row in three parts: those below the first cell, n turns of r outputs, then the rest.
fn across_turns(row: Row, s: &mut [f32], from: usize, n: usize)
    requires { RowFits row (length s.old) × Turning row from n }
    ensures { s.new ≡ across_run row 0 row.w s.old }
{
    let rest = from + row.r * n;
    let turn = cycle_of(row, from);
    across_taps(row, s, 0, from);
    across_cycles(row, turn, s, from, n);
    across_taps(row, s, rest, row.w - rest);
}

// A row at a numerator other than 1. Where it is the ratio each output has its own cell. Else it goes by turns, and one output at least isn't
// counted where it is divided into them: in a row that fills its cells the last turn's outputs reach the last cell, behind which there is none.
fn across_ratio(row: Row, s: &mut [f32])
    requires { RowFits row (length s.old) × (row.axis.num ≡ 1 → ⊥) }
    ensures { s.new ≡ across_run row 0 row.w s.old }
{
    if row.axis.num == row.r {
        across_taps(row, s, 0, row.w);
        return;
    }
    let from = first_of(row.axis.siting);
    across_turns(row, s, from, (row.w - 1) / row.r);
}

// Inner: a row across. At ratio 1 and in narrow rows of whole ratios each output has its tap; else the row goes by its head, its pairs of
// cells and the rest, or by its turns.
pub fn across_row(row: Row, s: &mut [f32])
    requires { RowFits row (length s.old) }
    ensures { s.new ≡ across_run row 0 row.w s.old }
{
    if row.axis.num != 1 {
        across_ratio(row, s);
        return;
    }
    if row.r == 1 || row.w < Twos::ROW {
        across_taps(row, s, 0, row.w);
        return;
    }
    let siting = row.axis.siting;
    let head = head_of(siting, row.r);
    // Not counted where a row is divided into pairs of cells are the outputs of the head, and one at least: a co-sited row that fills its cells
    // has no head, and the outputs of its last cell lie in no pair.
    let lead = head.max(1);
    across_parts(row, s, head, (row.w - lead) / row.r);
}
