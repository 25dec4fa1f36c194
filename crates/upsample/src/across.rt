// A row at ratios (2,2) and (2,1): the vertical sums of two rows of cells, weighed across. Of the two outputs of cell i, 2i weighs in the
// sum before it and 2i + 1 the sum after it.
//
// A row of ratio (2,1) has no second row of cells: it is its own far row, so that its sums are its cells four times, and its bias is taken
// four times too (`one_axis_is` in proofs/Axis). The two ratios share every loop.
ghost use Rattle.std.specs.Prelude.{◌≡◌, ◌+◌, ◌-◌, ◌*◌, ◌/◌, ◌≤◌, ◌<◌, length, set};
ghost use Rattle.laws.specs.Lists.{put};
ghost use Rattle.upsample.specs.Inner.Pairs.{RowsInside, Doubled, Small, across_row, sums};

use crate::axes::Bias;
use crate::rows::CellRows;
use crate::sums::Sum;

// The two outputs of the cell whose vertical sum is `middle`, at `at` and at + 1.
fn put_pair<S: Sum>(out: &mut [u16], at: usize, before: S, middle: S, after: S, bias: Bias)
    requires at_in_bounds { at + 2 ≤ length out.old }
    requires before_bound { (S.number before ≤ S.MOST) × (S.number middle ≤ S.MOST) × (S.number after ≤ S.MOST) × Small bias }
    ensures { out.new ≡ set (set out.old at ((3 * S.number middle + S.number before + bias.left) / 16))
        (at + 1) ((3 * S.number middle + S.number after + bias.right) / 16) }
{
    out[at] = middle.weigh(before, bias.left);
    out[at + 1] = middle.weigh(after, bias.right);
}

// The outputs of the first cell, which is its own neighbour before.
fn first_cell<S: Sum>(rows: CellRows<'_>, cw: usize, bias: Bias, out: &mut [u16], at: usize)
    requires { RowsInside S.BYTES cw rows × Small bias × (2 < cw) × (at + 2 ≤ length out.old) }
    ensures { out.new ≡ put out.old at 2 (across_row bias cw (sums S.BYTES rows.entry)) }
{
    let middle = S::sum(rows, 0);
    let after = S::sum(rows, 1);
    put_pair(out, at, middle, middle, after, bias);
}

// The outputs of the cells between the first and the last of a row.
#[tactic(auto, using(laws::proofs::Lists::run_none))]
fn inner_cells<S: Sum>(rows: CellRows<'_>, cw: usize, bias: Bias, out: &mut [u16], at: usize)
    requires { RowsInside S.BYTES cw rows × Small bias × (2 < cw) × (at + 2 * (cw - 2) ≤ length out.old) }
    ensures { out.new ≡ put out.old at (2 * (cw - 2)) (λ x. across_row bias cw (sums S.BYTES rows.entry) (2 + x)) }
{
    let n = cw - 2;
    for k in 0..n {
        let before = S::sum(rows, k);
        let middle = S::sum(rows, k + 1);
        let after = S::sum(rows, k + 2);
        put_pair(out, at + 2 * k, before, middle, after, bias);
    }
}

// The n outputs of the last cell, which is its own neighbour after: one where the row's width is odd.
fn last_cell<S: Sum>(
    rows: CellRows<'_>,
    cw: usize,
    n: usize,
    bias: Bias,
    out: &mut [u16],
    at: usize,
)
    requires { RowsInside S.BYTES cw rows × Small bias × (2 < cw) × (1 ≤ n) × (n ≤ 2) × (at + n ≤ length out.old) }
    ensures { out.new ≡ put out.old at n (λ x. across_row bias cw (sums S.BYTES rows.entry) (2 * (cw - 1) + x)) }
{
    let before = S::sum(rows, cw - 2);
    let last = S::sum(rows, cw - 1);
    if n == 1 {
        out[at] = last.weigh(before, bias.left);
        return;
    }
    put_pair(out, at, before, last, last, bias);
}

// The w values of a row whose vertical sums are of type S.
fn row_of<S: Sum>(rows: CellRows<'_>, cw: usize, w: usize, bias: Bias, out: &mut [u16], at: usize)
    requires { RowsInside S.BYTES cw rows × Doubled cw w × Small bias × (at + w ≤ length out.old) }
    ensures { out.new ≡ put out.old at w (across_row bias cw (sums S.BYTES rows.entry)) }
{
    first_cell::<S>(rows, cw, bias, out, at);
    inner_cells::<S>(rows, cw, bias, out, at + 2);
    let last = 2 * (cw - 1);
    last_cell::<S>(rows, cw, w - last, bias, out, at + last);
}

// Inner: the w values of the row between two rows of cells, to out from `at` on.
pub fn across_row(
    rows: CellRows<'_>,
    sample_bytes: usize,
    cw: usize,
    w: usize,
    bias: Bias,
    out: &mut [u16],
    at: usize,
)
    requires { RowsInside sample_bytes cw rows × Doubled cw w × Small bias × (at + w ≤ length out.old) }
    ensures { out.new ≡ put out.old at w (across_row bias cw (sums sample_bytes rows.entry)) }
{
    if sample_bytes == 1 {
        row_of::<u16>(rows, cw, w, bias, out, at);
        return;
    }
    row_of::<u32>(rows, cw, w, bias, out, at);
}
