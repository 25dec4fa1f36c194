// Replays the stored list of calls of the reader on standard input, open, seek and row, and writes for each its answer and the sum of what
// it left. All share one scratch, which is not-a-number at first and never cleared, and one reader.
// oracle/reader-cases made the list and what must be written for it: a line of 142 bytes for each call, a kind and 28 words of four hex
// digits:
// w h rh rv cw ch sample_bytes maxval(2) y_stride cb_stride cr_stride y_len cb_len cr_len seed y_shape cb_shape cr_shape
// space(2) room_cb room_cr row change value(3).
// A line that is no call spells the bytes that planes of shape 3 have in the calls behind it.
#![tactic(auto)]

ghost use Rattle.std.specs.Prelude.{◌≤◌};

use guided::{Geometry, Reader};
use image::{Planes, Range};
use laws::Refusal;
use std::io;
use std::io::{Print, Read};
use taps::Phase;
use test_support::Buffers;

// What a call answered, and the sum of its outputs.
#[derive(Clone, Copy)]
struct Done {
    answer: usize,
    sum: u32,
}

// What a call comes to that has no outputs to sum.
fn without_outputs(answer: Result<(), Refusal>) -> Done {
    Done {
        answer: test_support::number(answer),
        sum: 0,
    }
}

// An output that no call has written: it holds one value throughout, so that the sum shows which were written.
fn unwritten() -> [f32; 65_536] {
    [1.5; 65_536]
}

// A phase as a number: the 32 bits of its fraction, and 2^32 more where it goes to the left.
fn phase_number(p: Phase) -> usize {
    if p.left {
        return 4_294_967_296 + test_support::bits(p.f) as usize;
    }
    test_support::bits(p.f) as usize
}

// A range as C has it.
fn range_number(range: Range) -> usize
    ensures { result ≤ 1 }
{
    match range {
        Range::Full => 0,
        Range::Studio => 1,
    }
}

// A reader as sixteen numbers, of which a line can name one to change by its index: place, h_next, f_next, maxval and above its 32 bits
// the range, sample_bytes, w h rh rv cw ch and the four phases. The first is 0, since a line says by index 0 that nothing is changed.
fn numbers(r: Reader) -> [usize; 16] {
    let g = r.geometry;
    let p = g.phases;
    let range = g.range;
    [
        0,
        r.place,
        r.h_next,
        r.f_next,
        range_number(range) * 4_294_967_296 + r.maxval as usize,
        r.sample_bytes,
        g.w,
        g.h,
        g.rh,
        g.rv,
        g.cw,
        g.ch,
        phase_number(p[0]),
        phase_number(p[1]),
        phase_number(p[2]),
        phase_number(p[3]),
    ]
}

// The phase that `phase_number` makes n of.
fn phase(n: usize) -> Phase {
    Phase {
        left: n >= 4_294_967_296,
        f: test_support::float(test_support::low(n)),
    }
}

// The reader that `numbers` makes these sixteen of; the first doesn't count.
fn reader_of(n: [usize; 16]) -> Reader {
    let phases = [phase(n[12]), phase(n[13]), phase(n[14]), phase(n[15])];
    let geometry = Geometry {
        w: n[6],
        h: n[7],
        rh: n[8],
        rv: n[9],
        cw: n[10],
        ch: n[11],
        phases,
        range: test_support::range_of(test_support::low(n[4] / 4_294_967_296)),
    };
    Reader {
        geometry,
        sample_bytes: n[5],
        maxval: test_support::low(n[4]),
        place: n[1],
        h_next: n[2],
        f_next: n[3],
    }
}

// The reader that a line's call is handed: the one that the calls before it left, with one number changed where the line says which. From
// 16 on the indices are the same once more.
fn handed(text: &[u8], r: Reader) -> Reader {
    let mut n = numbers(r);
    n[test_support::word(text, 24) % 16] = test_support::value(text, 25);
    reader_of(n)
}

// `row` to a line's row number, and the sum of both outputs after it.
fn row_into(
    text: &[u8],
    reader: &mut Reader,
    planes: Planes<'_>,
    s: &mut [f32],
    out_cb: &mut [f32],
    out_cr: &mut [f32],
) -> Done {
    let row = test_support::size(text, 23);
    let answer = reconstruction::row(reader, planes, row, s, out_cb, out_cr);
    Done {
        answer: test_support::number(answer),
        sum: test_support::sum_floats(test_support::sum_floats(0, out_cb, 0), out_cr, 0),
    }
}

// `row` into outputs that no call has written, as long as the line says.
fn row(text: &[u8], reader: &mut Reader, planes: Planes<'_>, s: &mut [f32]) -> Done {
    let mut out_cb = unwritten();
    let mut out_cr = unwritten();
    let room_cb = test_support::word(text, 21);
    let room_cr = test_support::word(text, 22);
    row_into(
        text,
        reader,
        planes,
        s,
        &mut out_cb[..room_cb],
        &mut out_cr[..room_cr],
    )
}

// The call that a line's kind names, lent the three planes that the line speaks of. They are made for `seek` too, which has no use for them.
fn called(text: &[u8], spelling: &[u8], reader: &mut Reader, s: &mut [f32]) -> Done {
    let buffers = Buffers::new(text, spelling);
    let planes = buffers.planes(text);
    match test_support::kind(text) {
        b'o' => without_outputs(reconstruction::open(
            test_support::layout(text),
            planes,
            s,
            reader,
        )),
        b's' => without_outputs(reconstruction::seek(reader, test_support::size(text, 23))),
        _ => row(text, reader, planes, s),
    }
}

// How many floats at the front of scratch an accepted row call may touch: 32·cw + 8·w, where neither is past 8,192.
fn row_need(reader: Reader) -> usize {
    let g = reader.geometry;
    32 * g.cw.min(8_192) + 8 * g.w.min(8_192)
}

// Writes a call's line. The sum is of its outputs, of the reader as the call left it, and of whether it changed scratch that it may not touch.
fn write_call(rt: &impl Print, done: Done, reader: Reader, fault: u32) -> io::Result<()> {
    let n = numbers(reader);
    let sum = test_support::sum_numbers(done.sum, &n);
    test_support::write_line(rt, done.answer, test_support::added(sum, fault))
}

// Makes the call of a line with a reader, and writes its line.
fn written(
    rt: &impl Print,
    text: &[u8],
    spelling: &[u8],
    reader: &mut Reader,
    s: &mut [f32],
) -> io::Result<()> {
    let need = row_need(*reader);
    let before = test_support::scratch_sums(s, need);
    let done = called(text, spelling, reader, s);
    let after = test_support::scratch_sums(s, need);
    let fault = test_support::scratch_fault(before, after, done.answer);
    write_call(rt, done, *reader, fault)
}

// Makes a line's call with as much of the front of scratch as the line says. The reader is afterwards what the call left, or, where a number
// was changed by an index below 16, what it was.
fn replay(
    rt: &impl Print,
    text: &[u8; 142],
    spelling: &[u8; 142],
    reader: &mut Reader,
    s: &mut [f32],
) -> io::Result<()> {
    let mut given = handed(text, *reader);
    let space = test_support::long(text, 19).min(s.len());
    written(rt, text, spelling, &mut given, &mut s[..space])?;
    let change = test_support::word(text, 24);
    if change == 0 || 16 <= change {
        *reader = given;
    }
    Ok(())
}

// Makes the calls of all lines, which have 142 bytes each, the newline too. The list ends where fewer are left. The first reader has 0
// throughout, which no open gave. A line of kind `b` is no call: it is kept as the spelling.
fn replay_all<R: Read>(rt: &impl Print, input: &mut R, s: &mut [f32]) -> io::Result<()> {
    let mut spelling = [0u8; 142];
    let mut reader = reader_of([0; 16]);
    for _ in 0..test_support::LINES {
        let Some(text) = test_support::read_line(input)? else {
            break;
        };
        match text[0] {
            b'b' => spelling = text,
            _ => replay(rt, &text, &spelling, &mut reader, s)?,
        }
    }
    Ok(())
}

// Scratch before the first call, not-a-number throughout, so that a value which is read before it was written shows.
fn scratch() -> [f32; 200_000] {
    [0.0 / 0.0; 200_000]
}

fn main(rt: HostRuntime) -> io::Result<()> {
    let mut s = scratch();
    replay_all(&rt, &mut rt.stdin(), &mut s)
}
