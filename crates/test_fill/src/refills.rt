// Replays of refills. A refill's line is like a fill's, whose planes are those after the change. The last line before it whose kind is `c` says
// what the change was, in 24 words:
// left top width height old_y_stride old_cb_stride old_cr_stride old_y_len old_cb_len old_cr_len other at by held mask, nine of 0.
// The planes before the change have the samples of those after it, wherever those lie by their own strides, but for the cells of the
// rectangle, each byte of which has `mask` put over it, and for byte `at` of plane `other` (1 Y, 2 Cb, 3 Cr, 0 none), which has `by` put
// over it. Their padding and surplus are 9. Where `held` is 1, out holds their fill at first.
ghost use Rattle.std.specs.Prelude.{◌<◌, length};

use fill::ChromaUpsampling;
use image::{Planes, Rectangle};
use std::io;
use std::io::Print;
use test_support::{Buffers, byte, front, size, word};

// Scratch for the fill before the change.
fn plain() -> [f32; 65_536] {
    [0.0; 65_536]
}

// Whether a place is one of the n from `from` on.
fn among(from: usize, n: usize, at: usize) -> bool {
    from <= at && at - from < n
}

// Whether column i of row j of a chroma plane is one of the rectangle's cells.
fn changed(change: &[u8], i: usize, j: usize) -> bool {
    among(size(change, 0), size(change, 2), i) && among(size(change, 1), size(change, 3), j)
}

// Whether a line's rectangle has no cell.
fn no_cell(change: &[u8]) -> bool {
    word(change, 2) == 0 || word(change, 3) == 0
}

// Side k of plane `of`: columns for 0, rows for 1. Luma's stand at the line's beginning, chroma's four words behind them.
fn side(text: &[u8], of: usize, k: usize) -> usize
    requires { k < 2 }
    ensures { result < 65536 }
{
    if of == 0 {
        word(text, k)
    } else {
        word(text, 4 + k)
    }
}

// The column that byte x of a row is in.
fn column(text: &[u8], x: usize) -> usize {
    if word(text, 6) == 2 { x / 2 } else { x }
}

// A byte with the low byte of a number put over it.
fn over(b: u8, n: usize) -> u8 {
    b ^ ((n % 256) as u8)
}

// Byte x of row j of plane k before the change; `new` is that plane after it.
fn sample_byte(text: &[u8], change: &[u8], new: &[u8], k: usize, j: usize, x: usize) -> u8
    requires { (k < 3) × (j < 65536) × (x < 65536) }
{
    let b = byte(new, j * word(text, 9 + k) + x);
    if k != 0 && changed(change, column(text, x), j) {
        over(b, word(change, 14))
    } else {
        b
    }
}

// Byte i of plane k before the change but for the one that `other` names: a sample's, or 9.
fn plain_byte(text: &[u8], change: &[u8], new: &[u8], k: usize, i: usize) -> u8
    requires { (k < 3) × (i < 65536) }
{
    let stride = word(change, 4 + k);
    if stride == 0 {
        return 9;
    }
    let j = (i / stride).min(65_535);
    let x = (i % stride).min(65_535);
    if j < side(text, k, 1) && column(text, x) < side(text, k, 0) {
        sample_byte(text, change, new, k, j, x)
    } else {
        9
    }
}

// Byte i of plane k before the change.
fn old_byte(text: &[u8], change: &[u8], new: &[u8], k: usize, i: usize) -> u8
    requires { (k < 3) × (i < 65536) }
{
    let b = plain_byte(text, change, new, k, i);
    if word(change, 10) == k + 1 && word(change, 11) == i {
        return over(b, word(change, 12));
    }
    b
}

// Fills a plane with the bytes that plane k has before the change.
fn put_old(text: &[u8], change: &[u8], new: &[u8], k: usize, plane: &mut [u8])
    requires { (k < 3) × (length plane.old < 65536) }
{
    for (i, b) in plane.iter_mut().enumerate() {
        *b = old_byte(text, change, new, k, i);
    }
}

// Plane k before the change, at the front of a buffer.
fn old_plane(text: &[u8], change: &[u8], new: &[u8], k: usize) -> [u8; 65_536]
    requires { k < 3 }
{
    let mut plane = test_support::large_buffer();
    let n = word(change, 7 + k);
    put_old(text, change, new, k, &mut plane[..n]);
    plane
}

// The rectangle of changed cells.
fn rectangle(change: &[u8]) -> Rectangle {
    Rectangle {
        left: size(change, 0),
        top: size(change, 1),
        width: size(change, 2),
        height: size(change, 3),
    }
}

// Fills out from the planes before the change, where the line asks for it. A fill that is refused leaves it.
fn hold(text: &[u8], change: &[u8], old: Planes<'_>, out: &mut [u8]) {
    if word(change, 13) != 1 {
        return;
    }
    let mut s = plain();
    let _ = reconstruction::fill(
        test_support::layout(text),
        old,
        ChromaUpsampling::LumaGuided,
        crate::kernel(text),
        size(text, 20),
        &mut s,
        out,
    );
}

// What out holds before the call.
fn held(text: &[u8], change: &[u8], old: Planes<'_>) -> [u8; 65_536] {
    let mut out = crate::unwritten();
    let room = word(text, 23);
    hold(text, change, old, &mut out[..room]);
    out
}

// Makes the call of a refill and writes its line. The sum is of all of out, and of the scratch that the call may not touch: all of it where
// the rectangle has no cell.
fn refill_lent(
    rt: &impl Print,
    text: &[u8],
    change: &[u8],
    old: Planes<'_>,
    new: Planes<'_>,
    s: &mut [f32],
    out: &mut [u8],
) -> io::Result<()> {
    let answer = test_support::number(reconstruction::refill(
        test_support::layout(text),
        old,
        new,
        rectangle(change),
        crate::kernel(text),
        size(text, 20),
        s,
        out,
    ));
    let part = if no_cell(change) {
        0
    } else {
        test_support::scratch_part(text, answer)
    };
    let sum = test_support::sum_floats(test_support::sum_bytes(0, out), s, part);
    test_support::write_line(rt, answer, sum)
}

// Makes the call of a refill with scratch that no call has touched and out as its line says.
fn refill_marked(
    rt: &impl Print,
    text: &[u8],
    change: &[u8],
    old: Planes<'_>,
    new: Planes<'_>,
) -> io::Result<()> {
    let mut s = crate::marked();
    let mut out = held(text, change, old);
    let space = test_support::long(text, 21).min(600_000);
    let room = word(text, 23);
    refill_lent(
        rt,
        text,
        change,
        old,
        new,
        &mut s[..space],
        &mut out[..room],
    )
}

// Makes the call of a refill with the planes before the change that go with those after it.
fn refill_after(rt: &impl Print, text: &[u8], change: &[u8], new: Planes<'_>) -> io::Result<()> {
    let y = old_plane(text, change, new.y.bytes, 0);
    let cb = old_plane(text, change, new.cb.bytes, 1);
    let cr = old_plane(text, change, new.cr.bytes, 2);
    let old = Planes {
        y: front(&y, word(change, 7), size(change, 4)),
        cb: front(&cb, word(change, 8), size(change, 5)),
        cr: front(&cr, word(change, 9), size(change, 6)),
    };
    refill_marked(rt, text, change, old, new)
}

// Inner: makes the call of a refill with the planes that its line and the change's speak of, and writes its line, which rt compares with the
// stored one. It gives nothing but an error where writing failed and is lent nothing to write, so that there is nothing else to promise.
pub fn refill(rt: &impl Print, text: &[u8], spelling: &[u8], change: &[u8]) -> io::Result<()> {
    let buffers = Buffers::new(text, spelling);
    refill_after(rt, text, change, buffers.planes(text))
}
