// Finished rows of floats rounded to the samples of a plane, as `reconstruct` of the original does.
ghost use Rattle.std.specs.Prelude.{◌≡◌, ◌+◌, ◌≤◌, length};
ghost use Rattle.linear.specs.Inner.Stores.{store_run};

use lanes::{Lanes, load};

// Sixteen values of s from src on, rounded and limited to 0..=maxval, to out from `at` on.
fn store_block(s: &[f32], src: usize, maxval: u32, out: &mut [u16], at: usize)
    requires { (maxval ≤ 65535) × (src + 16 ≤ length s.now) × (at + 16 ≤ length out.old) }
    ensures { out.new ≡ store_run s.now src 16 maxval at out.old }
{
    let samples = fround::rounded(load(s, src), maxval).cast::<u16>();
    out[at..at + Lanes::PIXELS].copy_from_slice(&samples.to_array());
}

// n values of s from src on, one by one. By `as`: the number was limited before, and TryFrom would have an error that can't be.
#[tactic(auto, using(laws::proofs::Lists::run_none, laws::proofs::Lists::run_end), unfolding(crate::specs::Inner::Stores::store_run))]
fn store_each(s: &[f32], src: usize, n: usize, maxval: u32, out: &mut [u16], at: usize)
    requires { (maxval ≤ 65535) × (src + n ≤ length s.now) × (at + n ≤ length out.old) }
    ensures { out.new ≡ store_run s.now src n maxval at out.old }
{
    for i in 0..n {
        out[at + i] = fround::round_clamped_by_grid(s[src + i], maxval) as u16;
    }
}

// Inner: n values of s from src on, rounded and limited to 0..=maxval, to out from `at` on: sixteen at a time, and those left one by one.
#[tactic(auto, using(laws::proofs::Lists::run_none), unfolding(crate::specs::Inner::Stores::store_run))]
pub fn store_row(s: &[f32], src: usize, n: usize, maxval: u32, out: &mut [u16], at: usize)
    requires { (maxval ≤ 65535) × (src + n ≤ length s.now) × (at + n ≤ length out.old) }
    ensures { out.new ≡ store_run s.now src n maxval at out.old }
{
    let blocks = n / Lanes::PIXELS;
    for b in 0..blocks {
        let i = b * Lanes::PIXELS;
        store_block(s, src + i, maxval, out, at + i);
    }
    let i = blocks * Lanes::PIXELS;
    store_each(s, src + i, n - i, maxval, out, at + i);
}
