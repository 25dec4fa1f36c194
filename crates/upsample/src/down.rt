// A row at ratio (1,2): one axis, down. Each output weighs the cell of its own column in two rows of cells.
ghost use Rattle.std.specs.Prelude.{◌≡◌, ◌+◌, ◌≤◌, length};
ghost use Rattle.laws.specs.Lists.{put};
ghost use Rattle.upsample.specs.Inner.Pairs.{RowsInside, down_row, sums};

use crate::axes::one_axis;
use crate::rows::CellRows;

// The w values of a row between two rows of cells, whose samples have BYTES bytes. Their size is a constant in the loop, so that the compiler
// makes a loop for each size.
#[tactic(auto, using(laws::proofs::Lists::run_none))]
fn down_cells<const BYTES: usize>(
    rows: CellRows<'_>,
    bias: u8,
    w: usize,
    out: &mut [u16],
    at: usize,
)
    requires { RowsInside BYTES w rows × (bias ≤ 2) × (at + w ≤ length out.old) }
    ensures { out.new ≡ put out.old at w (down_row (sums BYTES rows.entry) bias) }
{
    for x in 0..w {
        out[at + x] = one_axis(
            rows.near_cell(BYTES, x),
            rows.far_cell(BYTES, x),
            u32::from(bias),
        );
    }
}

// Inner: the w values of the row between two rows of cells.
pub fn down_row(
    rows: CellRows<'_>,
    sample_bytes: usize,
    bias: u8,
    w: usize,
    out: &mut [u16],
    at: usize,
)
    requires { RowsInside sample_bytes w rows × (bias ≤ 2) × (at + w ≤ length out.old) }
    ensures { out.new ≡ put out.old at w (down_row (sums sample_bytes rows.entry) bias) }
{
    if sample_bytes == 1 {
        down_cells::<1>(rows, bias, w, out, at);
        return;
    }
    down_cells::<2>(rows, bias, w, out, at);
}
