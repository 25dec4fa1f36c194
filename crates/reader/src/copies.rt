// The finished rows that scratch holds, given out.
ghost use Rattle.std.specs.Prelude.{◌≡◌, ◌+◌, ◌*◌, ◌≤◌, length};
ghost use Rattle.laws.specs.Lists.{put};
ghost use Rattle.image.specs.Scratch.{cell_at};

// Copies the n values of s from src on to out from at on. It is a loop: `copy_from_slice` of values whose number the compiler doesn't know is a
// call of memmove, which the library for C asks of no other library.
fn copy_row(s: &[f32], src: usize, n: usize, out: &mut [f32], at: usize)
    requires { (src + n ≤ length s.now) × (at + n ≤ length out.old) }
    ensures { out.new ≡ put out.old at n (cell_at s.now src) }
{
    for i in 0..n {
        out[at + i] = s[src + i];
    }
}

// Inner: copies the finished rows, Cb's at 0 and Cr's at w of scratch, to the front of the outputs.
pub fn copy_rows(s: &[f32], w: usize, out_cb: &mut [f32], out_cr: &mut [f32])
    requires { (2 * w ≤ length s.now) × (w ≤ length out_cb.old) × (w ≤ length out_cr.old) }
    ensures { (out_cb.new ≡ put out_cb.old 0 w (cell_at s.now 0))
        × (out_cr.new ≡ put out_cr.old 0 w (cell_at s.now w)) }
{
    copy_row(s, 0, w, out_cb, 0);
    copy_row(s, w, w, out_cr, 0);
}
