// The cells of a linear row, lerped down from two rows of a plane into scratch.
ghost use Rattle.std.specs.Prelude.{◌≡◌, ◌+◌, ◌*◌, ◌≤◌, length};
ghost use Rattle.linear.specs.Inner.Down.{down_run};

use fround::whole;
use taps::lerp;

// What `down_row` gives, for samples of BYTES bytes. Their size is a constant in the loop, so that the compiler makes a loop for each size.
#[tactic(auto, using(laws::proofs::Lists::run_none, laws::proofs::Lists::run_end), unfolding(crate::specs::Inner::Down::down_run))]
fn down_cells<const BYTES: usize>(
    plane: &[u8],
    a: usize,
    b: usize,
    f: f32,
    n: usize,
    s: &mut [f32],
    dst: usize,
)
    requires le_bytes { (1 ≤ BYTES) × (BYTES ≤ 2) }
    requires bytes_in_bounds { (a + n * BYTES ≤ length plane.now) × (b + n * BYTES ≤ length plane.now) }
    requires n_in_bounds { dst + n ≤ length s.old }
    ensures { s.new ≡ down_run plane.now BYTES a b f n dst s.old }
{
    for i in 0..n {
        let near = image::sample(plane, BYTES, a + i * BYTES);
        let far = image::sample(plane, BYTES, b + i * BYTES);
        s[dst + i] = lerp(whole(u32::from(near)), whole(u32::from(far)), f);
    }
}

// Inner: n samples of the two rows of a plane that begin at bytes a and b, lerped by f, to s from dst on.
pub fn down_row(
    plane: &[u8],
    sample_bytes: usize,
    a: usize,
    b: usize,
    f: f32,
    n: usize,
    s: &mut [f32],
    dst: usize,
)
    requires le_sample_bytes { (1 ≤ sample_bytes) × (sample_bytes ≤ 2) }
    requires sample_bytes_in_bounds { (a + n * sample_bytes ≤ length plane.now) × (b + n * sample_bytes ≤ length plane.now) }
    requires n_in_bounds { dst + n ≤ length s.old }
    ensures { s.new ≡ down_run plane.now sample_bytes a b f n dst s.old }
{
    if sample_bytes == 1 {
        down_cells::<1>(plane, a, b, f, n, s, dst);
        return;
    }
    down_cells::<2>(plane, a, b, f, n, s, dst);
}
