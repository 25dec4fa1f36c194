// Cell luma: document 01's "the sum over the cell's pixels inside the picture, divided by their number".
ghost use Rattle.std.specs.Prelude.{◌≡◌, ◌+◌, ◌*◌, ◌≤◌, ◌<◌, length};
ghost use Rattle.image.specs.Samples.{sample_at, seen};
ghost use Rattle.guided.specs.Guided.{luma_of};
ghost use Rattle.guided_across.specs.Inner.Luma.{LumaPixels, row_sum, cell_sum, luma_run, luma_row};

use crate::byte_cells::{cell_run, mean_of};
use image::{Layout, Plane};
use lanes::Lanes;

// The sum of the n samples of row y from column x on.
#[tactic(auto, using(crate::proofs::Areas::sum_next, crate::proofs::Areas::pixel_inside), unfolding(laws::specs::Sums::sum_to, crate::specs::Inner::Luma::row_sum, image::specs::Samples::sample_at))]
fn row_sum(layout: Layout, plane: Plane<'_>, x: usize, y: usize, n: usize) -> u32
    requires luma_pixels { LumaPixels layout (seen plane) }
    requires n_bound { (x + n ≤ layout.w) × (y < layout.h) × (n ≤ 4) }
    ensures { (result ≡ row_sum layout (seen plane.entry) x y n) × (result ≤ 65535 * n) }
{
    let bytes = layout.sample_bytes;
    let mut t = 0;
    for i in 0..n {
        t += u32::from(image::sample(plane.bytes, bytes, y * plane.stride + (x + i) * bytes));
    }
    t
}

// The sum of n samples from column x on in each of the m rows from row y on. The limit of a row, 262,140, is that of four samples of 65,535.
#[tactic(auto, using(crate::proofs::Areas::sum_next), unfolding(laws::specs::Sums::sum_to, crate::specs::Inner::Luma::cell_sum))]
fn cell_sum(layout: Layout, plane: Plane<'_>, x: usize, y: usize, n: usize, m: usize) -> u32
    requires luma_pixels { LumaPixels layout (seen plane) }
    requires n_bound { (x + n ≤ layout.w) × (y + m ≤ layout.h) × (n ≤ 4) × (m ≤ 4) }
    ensures { (result ≡ cell_sum layout (seen plane.entry) x y n m) × (result ≤ 262140 * m) }
{
    let mut t = 0;
    for i in 0..m {
        t += row_sum(layout, plane, x, y + i, n);
    }
    t
}

// The luma of cell i of chroma row j, by the pixels that it has inside the picture.
#[tactic(auto, using(crate::proofs::Areas::cell_is, crate::proofs::Areas::cell_right, crate::proofs::Areas::cell_down, crate::proofs::Areas::few_pixels))]
fn cell_luma(layout: Layout, plane: Plane<'_>, j: usize, i: usize) -> f32
    requires luma_pixels { LumaPixels layout (seen plane) }
    requires j_lt_ch { (j < layout.ch) × (i < layout.cw) }
    ensures { result ≡ luma_of layout (sample_at layout.sample_bytes (seen plane.entry)) j i }
{
    let rh = layout.rh;
    let rv = layout.rv;
    let x = i * rh;
    let y = j * rv;
    let nx = rh.min(layout.w - x);
    let ny = rv.min(layout.h - y);
    mean_of(cell_sum(layout, plane, x, y, nx, ny), nx * ny)
}

// The luma of n cells of chroma row j, from cell `from` on, one by one.
#[tactic(auto, using(guided_window::proofs::Puts::put_more), unfolding(laws::specs::Lists::put, crate::specs::Inner::Luma::luma_run))]
fn luma_cells(
    layout: Layout,
    plane: Plane<'_>,
    j: usize,
    s: &mut [f32],
    dst: usize,
    from: usize,
    n: usize,
)
    requires luma_pixels { LumaPixels layout (seen plane) }
    requires j_lt_ch { (j < layout.ch) × (from + n ≤ layout.cw) × (dst + from + n ≤ length s.old) }
    ensures { s.new ≡ luma_run layout (seen plane.entry) j dst from n s.old }
{
    for i in 0..n {
        s[dst + from + i] = cell_luma(layout, plane, j, from + i);
    }
}

// The luma of the cells at the row's beginning that are made by blocks, and how many those are. Blocks are for ratio 2 across, samples of
// one byte and sixteen full cells or more; none are made otherwise, and the last cell of an odd width is left to `luma_cells`.
#[tactic(auto, using(crate::proofs::Areas::luma_none, crate::proofs::Areas::cell_down, crate::proofs::Areas::full_cells, crate::proofs::Areas::row_within))]
fn luma_head(layout: Layout, plane: Plane<'_>, j: usize, s: &mut [f32], dst: usize) -> usize
    requires luma_pixels { LumaPixels layout (seen plane) }
    requires j_lt_ch { (j < layout.ch) × (dst + layout.cw ≤ length s.old) }
    ensures { (result ≤ layout.cw) × (s.new ≡ luma_run layout (seen plane.entry) j dst 0 result s.old) }
{
    let n = layout.w / 2;
    if layout.rh != 2 || layout.sample_bytes != 1 || n < Lanes::PIXELS {
        return 0;
    }
    let y = j * layout.rv;
    let m = layout.rv.min(layout.h - y);
    cell_run(plane, y * plane.stride, m, n, s, dst);
    n
}

// Inner: the luma of all cells of chroma row j, to s from dst on: by blocks as far as they go, then one by one.
pub fn luma_row(layout: Layout, plane: Plane<'_>, j: usize, s: &mut [f32], dst: usize)
    requires luma_pixels { LumaPixels layout (seen plane) }
    requires j_lt_ch { (j < layout.ch) × (dst + layout.cw ≤ length s.old) }
    ensures { s.new ≡ luma_row layout (seen plane.entry) j dst s.old }
{
    let n = luma_head(layout, plane, j, s, dst);
    luma_cells(layout, plane, j, s, dst, n, layout.cw - n);
}
