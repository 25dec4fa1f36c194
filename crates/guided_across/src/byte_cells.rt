// Cell luma by blocks, for ratio 2 across and samples of one byte: the means of cells that are two bytes wide, sixteen cells at a time.
ghost use Rattle.std.specs.Prelude.{◌≡◌, ℕ, ◌+◌, ◌*◌, ◌≤◌, ◌<◌, length, get_or};
ghost use Rattle.std.specs.Float.{nan};
ghost use Rattle.laws.specs.Floats.{f32, ◌⊘◌};
ghost use Rattle.laws.specs.Lists.{put};
ghost use Rattle.guided_across.specs.Inner.ByteCells.{pair_sum, pairs_sum, cell_mean, cell_run};

use fround::whole;
use image::Plane;
use lanes::{Lanes, put_block};

// Inner: a cell's luma: the sum of its pixels, divided by their number. The limit is that of sixteen pixels of 65,535. By
// `as`: n is 16 at most, and TryFrom would have an error that can't be.
pub fn mean_of(sum: u32, n: usize) -> f32
    requires { (sum ≤ 1048560) × (n ≤ 16) }
    ensures { result ≡ f32 sum ⊘ f32 n }
{
    whole(sum) / whole(n as u32)
}

// The sums of the sixteen pairs of bytes from byte `at` on: one row of sixteen cells. Sixteen bits hold the eight bytes of a cell, and a vector
// holds more of them than of wider numbers.
fn pair_sums(plane: &[u8], at: usize) -> [u16; Lanes::PIXELS]
    requires { at + 32 ≤ length plane.now }
    ensures { (k : ℕ) → k < 16 → (get_or result k 0 ≡ pair_sum plane.now at k) × (get_or result k 0 ≤ 510) }
{
    let mut v = [0u16; Lanes::PIXELS];
    for k in 0..Lanes::PIXELS {
        v[k] = u16::from(plane[at + 2 * k]) + u16::from(plane[at + (2 * k + 1)]);
    }
    v
}

// A row of sixteen numbers added to as many, number by number.
fn add_row(sums: &mut [u16; Lanes::PIXELS], row: [u16; Lanes::PIXELS])
    requires { (k : ℕ) → k < 16 → get_or sums.old k 0 + get_or row k 0 ≤ 65535 }
    ensures { (k : ℕ) → k < 16 → get_or sums.new k 0 ≡ get_or sums.old k 0 + get_or row k 0 }
{
    for k in 0..Lanes::PIXELS {
        sums[k] += row[k];
    }
}

// The sums of sixteen cells, m pairs of bytes one below another each, the first of which begins at `at`.
fn cell_sums(plane: Plane<'_>, at: usize, m: usize) -> [u16; Lanes::PIXELS]
    requires { (1 ≤ m) × (m ≤ 4) × ((dy : ℕ) → dy < m → at + dy * plane.stride + 32 ≤ length plane.bytes.now) }
    ensures { (k : ℕ) → k < 16 → (get_or result k 0 ≡ pairs_sum plane.entry.bytes.now at plane.entry.stride m k) × (get_or result k 0 ≤ 2040) }
{
    let mut sums = [0u16; Lanes::PIXELS];
    for dy in 0..m {
        add_row(&mut sums, pair_sums(plane.bytes, at + dy * plane.stride));
    }
    sums
}

// The means of sixteen cells of n pixels each, given their sums.
fn means(sums: [u16; Lanes::PIXELS], n: usize) -> [f32; Lanes::PIXELS]
    requires { (n ≤ 16) × ((k : ℕ) → k < 16 → get_or sums k 0 ≤ 2040) }
    ensures { (k : ℕ) → k < 16 → get_or result k nan ≡ f32 (get_or sums k 0) ⊘ f32 n }
{
    let mut v = [0.0; Lanes::PIXELS];
    for k in 0..Lanes::PIXELS {
        v[k] = mean_of(u32::from(sums[k]), n);
    }
    v
}

// The means of the sixteen cells from byte `at` on, of m rows each. Two rows are a case of their own: the number of pixels is a constant
// there, so that no division is left.
fn cell_block(plane: Plane<'_>, at: usize, m: usize) -> [f32; Lanes::PIXELS]
    requires { (1 ≤ m) × (m ≤ 4) × ((dy : ℕ) → dy < m → at + dy * plane.stride + 32 ≤ length plane.bytes.now) }
    ensures { (k : ℕ) → k < 16 → get_or result k nan ≡ f32 (pairs_sum plane.entry.bytes.now at plane.entry.stride m k) ⊘ f32 (2 * m) }
{
    if m == 2 {
        return means(cell_sums(plane, at, 2), 4);
    }
    means(cell_sums(plane, at, m), 2 * m)
}

// The means of sixteen cells, from cell i on, to s from dst + i on; the rows of cell 0 begin at byte `top`.
fn put_cells(plane: Plane<'_>, top: usize, m: usize, s: &mut [f32], dst: usize, i: usize)
    requires { (1 ≤ m) × (m ≤ 4)
        × ((dy : ℕ) → dy < m → top + dy * plane.stride + 2 * (i + 16) ≤ length plane.bytes.now)
        × (dst + i + 16 ≤ length s.old) }
    ensures { s.new ≡ put s.old (dst + i) 16 (λ k. cell_mean plane.entry.bytes.now top plane.entry.stride m (i + k)) }
{
    put_block(s, dst + i, cell_block(plane, top + 2 * i, m));
}

// Inner: the means of n cells, two by m bytes each, of the rows of a plane from byte `top` on, to s from dst on: blocks of sixteen, and where
// cells are left, one more that ends with them and overlaps the one before.
#[tactic(auto, unfolding(laws::specs::Lists::put, crate::specs::Inner::ByteCells::cell_run))]
pub fn cell_run(plane: Plane<'_>, top: usize, m: usize, n: usize, s: &mut [f32], dst: usize)
    requires { (1 ≤ m) × (m ≤ 4) × (16 ≤ n)
        × ((dy : ℕ) → dy < m → top + dy * plane.stride + 2 * n ≤ length plane.bytes.now)
        × (dst + n ≤ length s.old) }
    ensures { s.new ≡ cell_run plane.entry.bytes.now top plane.entry.stride m n dst s.old }
{
    for b in 0..n / Lanes::PIXELS {
        put_cells(plane, top, m, s, dst, b * Lanes::PIXELS);
    }
    if n % Lanes::PIXELS == 0 {
        return;
    }
    put_cells(plane, top, m, s, dst, n - Lanes::PIXELS);
}
