// Replays the stored list of calls on standard input, made as C makes them, and writes for each its answer and the sum of what it left.
// All share one scratch, which is not-a-number at first and never cleared, and one reader's state. oracle/ffi-cases made the list and what
// must be written for it: a line of 142 bytes for each call, a kind and 28 words of four hex digits. Of all kinds but pixels the first 21 are
// w h rh rv cw ch sample_bytes maxval(2) y_stride cb_stride cr_stride y_len cb_len cr_len seed y_shape cb_shape cr_shape space(2)
// and the other seven, of o (open), s (seek) and r (row), of f (fill), and of p (picture) and l, g and t (a plane: linear, guided, triangular)
// change value(3) room_cb room_cr row
// 0 upsampling(2) kernel(2) room size
// 0 0 0 0 0 room 0.
// The plane of l, g and t is Cb's, and a picture's input is Y's bytes. A pixel, e by the exact kernel and x by the fixed one, has
// y(2) cb(2) cr(2) maxval(2) range(2), eighteen of 0.
// A line of kind b is no call: it spells the bytes that planes of shape 3 have in the calls behind it.
#![tactic(auto)]

ghost use Rattle.std.specs.Prelude.{◌<◌};

use ffi::{ChromaLayout, ChromaPhase, ChromaPixel, ChromaReader, ChromaReply, ChromaStrides};
use image::Planes;
use std::io;
use std::io::{Print, Read};
use test_support::Buffers;

// What a call answered, and the sum of its outputs.
#[derive(Clone, Copy)]
struct Left {
    answer: u32,
    sum: u32,
}

// The same, with the state for the calls behind it.
#[derive(Clone, Copy)]
struct Done {
    left: Left,
    reader: ChromaReader,
}

// A row's output that no call has written: it holds one value throughout, so that the sum shows which were written.
fn unwritten_floats() -> [f32; 65_536] {
    [1.5; 65_536]
}

// A plane's output that no call has written, one value throughout too.
fn unwritten_values() -> [u16; 65_536] {
    [42_405; 65_536]
}

// An output of bytes that no call has written, one value throughout too.
fn unwritten_bytes() -> [u8; 65_536] {
    [160; 65_536]
}

// A line's layout in C's form.
fn layout(text: &[u8]) -> ChromaLayout {
    let l = test_support::layout(text);
    ChromaLayout {
        w: l.w,
        h: l.h,
        rh: l.rh,
        rv: l.rv,
        cw: l.cw,
        ch: l.ch,
        sample_bytes: l.sample_bytes,
        maxval: l.maxval,
        siting_across: test_support::siting(text, 2),
        siting_down: test_support::siting(text, 3),
        num_across: test_support::numerator(text, 2),
        num_down: test_support::numerator(text, 3),
        range: test_support::range(text),
    }
}

// The strides of planes in C's form.
fn strides(planes: Planes<'_>) -> ChromaStrides {
    ChromaStrides {
        y: planes.y.stride,
        cb: planes.cb.stride,
        cr: planes.cr.stride,
    }
}

// The 32-bit number in words k and k+1 of a line.
fn number(text: &[u8], k: usize) -> u32
    requires { k < 999 }
{
    test_support::long(text, k) as u32
}

// A phase as a number: the 32 bits of its fraction, and `left` above them.
fn phase_number(p: ChromaPhase) -> usize {
    p.left as usize * 4_294_967_296 + test_support::bits(p.f) as usize
}

// A state as sixteen numbers, of which a line can name one to change by its index: place, h_next, f_next, maxval and above its 32 bits
// the range, sample_bytes, w h rh rv cw ch and the four phases. The first is 0, since a line says by index 0 that nothing is changed.
fn numbers(r: ChromaReader) -> [usize; 16] {
    let p = r.phases;
    [
        0,
        r.place,
        r.h_next,
        r.f_next,
        r.range as usize * 4_294_967_296 + r.maxval as usize,
        r.sample_bytes,
        r.w,
        r.h,
        r.rh,
        r.rv,
        r.cw,
        r.ch,
        phase_number(p[0]),
        phase_number(p[1]),
        phase_number(p[2]),
        phase_number(p[3]),
    ]
}

// The phase that `phase_number` makes n of.
fn phase(n: usize) -> ChromaPhase {
    ChromaPhase {
        left: test_support::low(n / 4_294_967_296),
        f: test_support::float(test_support::low(n)),
    }
}

// The state that `numbers` makes these sixteen of; the first doesn't count.
fn reader_of(n: [usize; 16]) -> ChromaReader {
    let phases = [phase(n[12]), phase(n[13]), phase(n[14]), phase(n[15])];
    ChromaReader {
        w: n[6],
        h: n[7],
        rh: n[8],
        rv: n[9],
        cw: n[10],
        ch: n[11],
        phases,
        sample_bytes: n[5],
        maxval: test_support::low(n[4]),
        range: test_support::low(n[4] / 4_294_967_296),
        place: n[1],
        h_next: n[2],
        f_next: n[3],
    }
}

// The state that a line's call is handed: the one that the calls before it left, with one number changed where the line says which. From
// 16 on the indices are the same once more.
fn handed(text: &[u8], r: ChromaReader) -> ChromaReader {
    let mut n = numbers(r);
    n[test_support::word(text, 21) % 16] = test_support::value(text, 22);
    reader_of(n)
}

// What a reply comes to, with the sum of the call's outputs.
fn replied(reply: ChromaReply, sum: u32) -> Done {
    let reader = reply.reader;
    let left = Left {
        answer: reply.refusal,
        sum,
    };
    Done { left, reader }
}

// `chroma_open` with a line's layout. It has no outputs to sum.
fn open(text: &[u8], given: ChromaReader, planes: Planes<'_>, s: &[f32]) -> Done {
    let reply = ffi::chroma_open(
        layout(text),
        planes.y.bytes,
        planes.cb.bytes,
        planes.cr.bytes,
        strides(planes),
        s,
        given,
    );
    replied(reply, 0)
}

// `chroma_seek` to a line's row number. It has no outputs to sum.
fn seek(text: &[u8], given: ChromaReader) -> Done {
    replied(ffi::chroma_seek(given, test_support::size(text, 27)), 0)
}

// `chroma_row` with a line's row number, and the sum of both outputs after it.
fn row_into(
    text: &[u8],
    given: ChromaReader,
    planes: Planes<'_>,
    s: &mut [f32],
    out_cb: &mut [f32],
    out_cr: &mut [f32],
) -> Done {
    let reply = ffi::chroma_row(
        given,
        planes.y.bytes,
        planes.cb.bytes,
        planes.cr.bytes,
        strides(planes),
        test_support::size(text, 27),
        s,
        out_cb,
        out_cr,
    );
    let sum = test_support::sum_floats(test_support::sum_floats(0, out_cb, 0), out_cr, 0);
    replied(reply, sum)
}

// `chroma_row` into outputs that no call has written, as long as the line says.
fn row(text: &[u8], given: ChromaReader, planes: Planes<'_>, s: &mut [f32]) -> Done {
    let mut out_cb = unwritten_floats();
    let mut out_cr = unwritten_floats();
    let room_cb = test_support::word(text, 25);
    let room_cr = test_support::word(text, 26);
    row_into(
        text,
        given,
        planes,
        s,
        &mut out_cb[..room_cb],
        &mut out_cr[..room_cr],
    )
}

// The answer to the call of a whole plane that a line's kind names.
fn plane_answer(text: &[u8], planes: Planes<'_>, s: &mut [f32], out: &mut [u16]) -> u32 {
    let layout = layout(text);
    let y = planes.y;
    let cb = planes.cb;
    match test_support::kind(text) {
        b'l' => ffi::chroma_linear_plane(layout, cb.bytes, cb.stride, s, out),
        b'g' => ffi::chroma_guided_plane(layout, y.bytes, y.stride, cb.bytes, cb.stride, s, out),
        _ => ffi::chroma_triangular_plane(layout, cb.bytes, cb.stride, out),
    }
}

// The call of a whole plane that a line's kind names, and the sum of its output.
fn plane_into(text: &[u8], planes: Planes<'_>, s: &mut [f32], out: &mut [u16]) -> Left {
    let answer = plane_answer(text, planes, s, out);
    Left {
        answer,
        sum: test_support::sum_values(0, out),
    }
}

// The call of a whole plane into an output that no call has written, as long as the line says.
fn plane(text: &[u8], planes: Planes<'_>, s: &mut [f32]) -> Left {
    let mut out = unwritten_values();
    let room = test_support::word(text, 26);
    plane_into(text, planes, s, &mut out[..room])
}

// `chroma_fill` with a line's switches and pixel size, and the sum of its output.
fn fill(text: &[u8], planes: Planes<'_>, s: &mut [f32], out: &mut [u8]) -> Left {
    let answer = ffi::chroma_fill(
        layout(text),
        planes.y.bytes,
        planes.cb.bytes,
        planes.cr.bytes,
        strides(planes),
        number(text, 22),
        number(text, 24),
        test_support::size(text, 27),
        s,
        out,
    );
    Left {
        answer,
        sum: test_support::sum_bytes(0, out),
    }
}

// `chroma_picture`, and the sum of its output with how many bytes were written behind that.
fn picture(input: &[u8], s: &mut [f32], out: &mut [u8]) -> Left {
    let written = ffi::chroma_picture(input, s, out);
    let sum = test_support::sum_bytes(0, out);
    Left {
        answer: written.refusal,
        sum: test_support::added(sum, test_support::low(written.len)),
    }
}

// The call of a picture or of a fill, as a line's kind says.
fn bytes_into(text: &[u8], planes: Planes<'_>, s: &mut [f32], out: &mut [u8]) -> Left {
    if test_support::kind(text) == b'p' {
        return picture(planes.y.bytes, s, out);
    }
    fill(text, planes, s, out)
}

// The call of a picture or of a fill into an output that no call has written, as long as the line says.
fn bytes(text: &[u8], planes: Planes<'_>, s: &mut [f32]) -> Left {
    let mut out = unwritten_bytes();
    let room = test_support::word(text, 26);
    bytes_into(text, planes, s, &mut out[..room])
}

// What the call of a pixel comes to. Its three bytes stand in the place of a sum.
fn coloured(pixel: ChromaPixel) -> Left {
    Left {
        answer: pixel.refusal,
        sum: u32::from(pixel.r) * 65_536 + u32::from(pixel.g) * 256 + u32::from(pixel.b),
    }
}

// The call of a pixel that a line's kind names.
fn pixel(text: &[u8]) -> Left {
    let y = number(text, 0);
    let cb = number(text, 2);
    let cr = number(text, 4);
    if test_support::kind(text) == b'e' {
        return coloured(ffi::chroma_exact_pixel(y, cb, cr, number(text, 6), number(text, 8)));
    }
    coloured(ffi::chroma_fixed_pixel(y, cb, cr))
}

// The call, of those without a state, that a line's kind names.
fn stateless(text: &[u8], planes: Planes<'_>, s: &mut [f32]) -> Left {
    match test_support::kind(text) {
        b'f' | b'p' => bytes(text, planes, s),
        b'e' | b'x' => pixel(text),
        _ => plane(text, planes, s),
    }
}

// The call that a line's kind names, lent the three planes that the line speaks of. They are made for calls too that have no use for them.
fn called(text: &[u8], spelling: &[u8], given: ChromaReader, s: &mut [f32]) -> Done {
    let buffers = Buffers::new(text, spelling);
    let planes = buffers.planes(text);
    match test_support::kind(text) {
        b'o' => open(text, given, planes, s),
        b's' => seek(text, given),
        b'r' => row(text, given, planes, s),
        _ => Done {
            left: stateless(text, planes, s),
            reader: given,
        },
    }
}

// Writes a call's line. The sum is of its outputs, of the state afterwards, and of whether it changed scratch that it may not touch.
fn write_call(rt: &impl Print, done: Done, fault: u32) -> io::Result<()> {
    let n = numbers(done.reader);
    let sum = test_support::sum_numbers(done.left.sum, &n);
    test_support::write_line(
        rt,
        done.left.answer as usize,
        test_support::added(sum, fault),
    )
}

// Makes the call of a line with the state that it is handed, and writes its line.
fn written(
    rt: &impl Print,
    text: &[u8],
    spelling: &[u8],
    given: ChromaReader,
    s: &mut [f32],
) -> io::Result<Done> {
    let need = test_support::scratch_part(text, 0);
    let before = test_support::scratch_sums(s, need);
    let done = called(text, spelling, given, s);
    let after = test_support::scratch_sums(s, need);
    write_call(
        rt,
        done,
        test_support::scratch_fault(before, after, done.left.answer as usize),
    )?;
    Ok(done)
}

// Makes a line's call and gives the state for the next line: the one that the call gave, or, where a number was changed by an index below
// 16, the one from before it.
fn replayed(
    rt: &impl Print,
    text: &[u8],
    spelling: &[u8],
    reader: ChromaReader,
    s: &mut [f32],
) -> io::Result<ChromaReader> {
    let done = written(rt, text, spelling, handed(text, reader), s)?;
    let change = test_support::word(text, 21);
    if 0 < change && change < 16 {
        return Ok(reader);
    }
    Ok(done.reader)
}

// Makes a line's call with as much of the front of scratch as the line says, and gives the state for the next line.
fn replay(
    rt: &impl Print,
    text: &[u8; 142],
    spelling: &[u8; 142],
    reader: ChromaReader,
    s: &mut [f32],
) -> io::Result<ChromaReader> {
    let space = test_support::long(text, 19).min(s.len());
    replayed(rt, text, spelling, reader, &mut s[..space])
}

// Makes the calls of all lines, which have 142 bytes each, the newline too. The list ends where fewer are left. The first state has 0
// throughout, which no open gave.
fn replay_all<R: Read>(rt: &impl Print, input: &mut R, s: &mut [f32]) -> io::Result<()> {
    let mut spelling = [0u8; 142];
    let mut reader = reader_of([0; 16]);
    for _ in 0..test_support::LINES {
        let Some(text) = test_support::read_line(input)? else {
            break;
        };
        match text[0] {
            b'b' => spelling = text,
            _ => reader = replay(rt, &text, &spelling, reader, s)?,
        }
    }
    Ok(())
}

// Scratch before the first call, not-a-number throughout, so that a value which is read before it was written shows.
fn scratch() -> [f32; 200_000] {
    [0.0 / 0.0; 200_000]
}

fn main(rt: HostRuntime) -> io::Result<()> {
    let mut s = scratch();
    replay_all(&rt, &mut rt.stdin(), &mut s)
}
