// Sums of the channels over pixels, row by row: the three at once, since the bytes of a pixel stand side by side.
ghost use Rattle.std.specs.Prelude.{◌≡◌, ◌+◌, ◌*◌, ◌≤◌, ◌<◌, length};
ghost use Rattle.colorimetry.specs.Inner.Sums.{row_sum, area_sum, Totals, Inside};

// Inner: the sums of red, green and blue.
#[derive(Clone, Copy)]
pub struct Sums {
    pub r: u64,
    pub g: u64,
    pub b: u64,
}

impl Sums {
    // The sums over no pixel.
    const NONE: Sums = Sums { r: 0, g: 0, b: 0 };
}

// The sums of the n pixels from byte `at` on.
#[tactic(auto, using(crate::proofs::Summing::row_none, crate::proofs::Summing::row_more))]
fn row_sums(rgb: &[u8], at: usize, n: usize) -> Sums
    requires { (at + 3 * n ≤ length rgb.now) × (n ≤ 8192) }
    ensures { Totals (λ k. row_sum rgb.now at n k) (255 * n) result }
{
    // Three locals: the fields of one `Sums` would be stored and read again for each pixel.
    let mut r = 0u64;
    let mut g = 0u64;
    let mut b = 0u64;
    for i in 0..n {
        r += u64::from(rgb[at + 3 * i]);
        g += u64::from(rgb[at + 3 * i + 1]);
        b += u64::from(rgb[at + 3 * i + 2]);
    }
    Sums { r, g, b }
}

// Inner: the sums over m rows of n pixels, the first of which begins at byte `at` and each of the others `pitch` bytes after the one
// before it.
#[tactic(auto, using(crate::proofs::Summing::area_none, crate::proofs::Summing::area_more), unfolding(crate::specs::Inner::Sums::Inside))]
pub fn area_sums(rgb: &[u8], at: usize, pitch: usize, n: usize, m: usize) -> Sums
    requires { (n ≤ 8192) × (m ≤ 8192) × Inside (length rgb.now) at pitch n m }
    ensures { Totals (λ k. area_sum rgb.now at pitch n m k) (255 * (n * m)) result }
{
    let mut sums = Sums::NONE;
    for j in 0..m {
        let row = row_sums(rgb, at + j * pitch, n);
        sums.r += row.r;
        sums.g += row.g;
        sums.b += row.b;
    }
    sums
}
