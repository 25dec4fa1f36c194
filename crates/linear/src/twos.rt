// The two outputs between each pair of neighbouring cells at ratio 2: eight pairs at a time, so that the compiler computes many at once.
ghost use Rattle.std.specs.Prelude.{◌≡◌, ℕ, ◌+◌, ◌*◌, ◌≤◌, ◌<◌, length, get_or};
ghost use Rattle.std.specs.Float.{nan};
ghost use Rattle.linear.specs.Inner.AcrossRows.{parts_in, between_at, between_run};

use lanes::{Lanes, put_block};
use taps::lerp;

// Rows at ratio 2, two outputs to a cell.
#[derive(Clone, Copy)]
pub struct Twos;

impl Twos {
    // A row as wide as this has a block of eight pairs of cells: 2 * (Lanes::CELLS + 1) outputs, two for each of nine cells.
    pub const ROW: usize = 18;
}

// The outputs between eight pairs of the cells at src, from pair i on, by the two fractions that stand first in `parts`.
#[tactic(auto, using(laws::proofs::Lists::run_none, laws::proofs::Lists::front_at))]
fn twos_block(s: &[f32], src: usize, parts: [f32; 4], i: usize) -> [f32; Lanes::PIXELS]
    requires { src + (i + 9) ≤ length s.now }
    ensures { (k : ℕ) → k < 16 → get_or result k nan ≡ between_at (parts_in parts) 2 s.now src (2 * i + k) }
{
    let mut v = [0.0f32; Lanes::PIXELS];
    for k in 0..Lanes::CELLS {
        let a = s[src + (i + k)];
        let b = s[src + (i + k + 1)];
        v[2 * k] = lerp(a, b, parts[0]);
        v[2 * k + 1] = lerp(a, b, parts[1]);
    }
    v
}

// Inner: the outputs between n pairs of the cells at src, to s from dst on. The last block ends with the last pair: it overlaps the block
// before it and stores again what that stored.
#[tactic(auto, using(laws::proofs::Lists::run_end), unfolding(crate::specs::Inner::AcrossRows::between_run))]
pub fn across_twos(s: &mut [f32], src: usize, parts: [f32; 4], n: usize, dst: usize)
    requires { (8 ≤ n) × (dst + 2 * n ≤ src) × (src + (n + 1) ≤ length s.old) }
    ensures { s.new ≡ between_run (parts_in parts) 2 src n dst s.old }
{
    for b in 0..n.div_ceil(Lanes::CELLS) {
        let i = (b * Lanes::CELLS).min(n - Lanes::CELLS);
        let v = twos_block(s, src, parts, i);
        put_block(s, dst + 2 * i, v);
    }
}
