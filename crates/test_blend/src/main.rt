// Replays the stored list of calls on two readers on standard input, and writes for each its answer and the sum of what it left. Each
// reader has its own scratch, which is not-a-number at first and never cleared. oracle/blend-cases made the list and what must be written
// for it: a line of 142 bytes for each call, a kind and 28 words of four hex digits:
// w h rh rv cw ch sample_bytes maxval(2) y_stride cb_stride cr_stride y_len cb_len cr_len seed y_shape cb_shape cr_shape space(2)
// room weight row change early_change at 0.
// Of the early reader o is open, s seek and r a row as RGB; of the late one p, t and u. m is a blend: the line speaks of the late picture,
// and the last line of kind e, which is no call, of the early one. c is a reading on a chart of the picture that the rows given so far are:
// an accepted row is put into it from byte `at` on.
#![tactic(auto)]

ghost use Rattle.std.specs.Prelude.{◌≤◌};

use colorimetry::ChartReading;
use guided::{Geometry, Reader};
use image::{Planes, Range, Rectangle};
use laws::Refusal;
use std::io;
use std::io::{Print, Read};
use taps::Phase;
use test_support::Buffers;

// Both readers.
#[derive(Clone, Copy)]
struct Pair {
    early: Reader,
    late: Reader,
}

// An output of bytes that no call has written: it holds one value throughout, so that the sum shows which were written.
fn unwritten() -> [u8; 65_536] {
    [160; 65_536]
}

// A reader that no open gave, with 0 throughout.
fn nobody() -> Reader {
    let phase = Phase {
        left: false,
        f: 0.0,
    };
    let geometry = Geometry {
        w: 0,
        h: 0,
        rh: 0,
        rv: 0,
        cw: 0,
        ch: 0,
        phases: [phase, phase, phase, phase],
        range: Range::Full,
    };
    Reader {
        geometry,
        sample_bytes: 0,
        maxval: 0,
        place: 0,
        h_next: 0,
        f_next: 0,
    }
}

// A reader with other counters, place and maxval.
fn with(r: Reader, place: usize, h_next: usize, f_next: usize, maxval: u32) -> Reader {
    let geometry = r.geometry;
    Reader {
        geometry,
        sample_bytes: r.sample_bytes,
        maxval,
        place,
        h_next,
        f_next,
    }
}

// The reader that a call is handed: the one that the calls before it left, with one number changed where the line says which.
fn handed(r: Reader, change: usize) -> Reader {
    match change {
        0 => r,
        1 => with(r, 8_191, r.h_next, r.f_next, r.maxval),
        2 => with(r, r.place, 8_191, r.f_next, r.maxval),
        3 => with(r, r.place, r.h_next, 8_191, r.maxval),
        _ => with(r, r.place, r.h_next, r.f_next, 0),
    }
}

// A sum with what a reader is told by: its place, its counters, its maxval and its width.
fn sum_reader(sum: u32, r: Reader) -> u32 {
    let g = r.geometry;
    let n = [r.place, r.h_next, r.f_next, r.maxval as usize, g.w];
    test_support::sum_numbers(sum, &n)
}

// The call on one reader that a line's kind names, lent the three planes that the line speaks of, scratch and an output.
fn called(text: &[u8], reader: &mut Reader, s: &mut [f32], out: &mut [u8]) -> Result<(), Refusal> {
    let buffers = Buffers::new(text, text);
    let planes = buffers.planes(text);
    let row = test_support::size(text, 23);
    match test_support::kind(text) {
        b'o' | b'p' => reconstruction::open(test_support::layout(text), planes, s, reader),
        b's' | b't' => reconstruction::seek(reader, row),
        _ => reconstruction::rgb_row(reader, planes, row, s, out),
    }
}

// A line's blend, lent the six planes that the two lines speak of.
fn blend(
    text: &[u8],
    early: &[u8],
    pair: &mut Pair,
    s: &mut [f32],
    t: &mut [f32],
    out: &mut [u8],
) -> Result<(), Refusal> {
    let early_buffers = Buffers::new(early, early);
    let late_buffers = Buffers::new(text, text);
    colorimetry::blend_row(
        &mut pair.early,
        early_buffers.planes(early),
        s,
        &mut pair.late,
        late_buffers.planes(text),
        t,
        test_support::size(text, 23),
        test_support::size(text, 22),
        out,
    )
}

// Puts a row into the picture from a byte on, as far as that reaches.
fn keep(rows: &mut [u8], at: usize, out: &[u8]) {
    let from = at.min(rows.len());
    let n = out.len().min(rows.len() - from);
    rows[from..from + n].copy_from_slice(&out[..n]);
}

// Makes a line's call on one reader into an output that no call has written, and writes its line. An accepted row is kept, and the reader is
// afterwards what the call left, unless a number of it was changed for the call.
fn lone_into(
    rt: &impl Print,
    text: &[u8],
    reader: &mut Reader,
    s: &mut [f32],
    rows: &mut [u8],
    out: &mut [u8],
) -> io::Result<()> {
    let change = test_support::word(text, 24);
    let need = test_support::scratch_part(text, 0);
    let mut given = handed(*reader, change);
    let before = test_support::scratch_sums(s, need);
    let answer = test_support::number(called(text, &mut given, s, out));
    let after = test_support::scratch_sums(s, need);
    let sum = sum_reader(test_support::sum_bytes(0, out), given);
    test_support::write_line(
        rt,
        answer,
        test_support::added(sum, test_support::scratch_fault(before, after, answer)),
    )?;
    if change == 0 {
        *reader = given;
        if answer == 0 {
            keep(rows, test_support::word(text, 26), out);
        }
    }
    Ok(())
}

// The same, into as much of an output as the line says.
fn lone(
    rt: &impl Print,
    text: &[u8],
    reader: &mut Reader,
    s: &mut [f32],
    rows: &mut [u8],
) -> io::Result<()> {
    let mut out = unwritten();
    let room = test_support::word(text, 21);
    lone_into(rt, text, reader, s, rows, &mut out[..room])
}

// What a blend left, as one sum: of the output, of both readers and of whether it changed scratch that it may not touch.
fn sum_blend(out: &[u8], pair: Pair, early_fault: u32, late_fault: u32) -> u32 {
    let sum = sum_reader(test_support::sum_bytes(0, out), pair.early);
    let sum = test_support::added(sum_reader(sum, pair.late), early_fault);
    test_support::added(sum, late_fault)
}

// Makes a line's blend into an output that no call has written, and writes its line. Where it is accepted its row is kept, and the readers are
// afterwards what it left.
fn mixed_into(
    rt: &impl Print,
    text: &[u8],
    early: &[u8],
    pair: &mut Pair,
    s: &mut [f32],
    t: &mut [f32],
    rows: &mut [u8],
    out: &mut [u8],
) -> io::Result<()> {
    let need = test_support::scratch_part(text, 0);
    let early_need = test_support::scratch_part(early, 0);
    let mut given = Pair {
        early: handed(pair.early, test_support::word(text, 25)),
        late: handed(pair.late, test_support::word(text, 24)),
    };
    let s_before = test_support::scratch_sums(s, early_need);
    let t_before = test_support::scratch_sums(t, need);
    let answer = test_support::number(blend(text, early, &mut given, s, t, out));
    let s_after = test_support::scratch_sums(s, early_need);
    let t_after = test_support::scratch_sums(t, need);
    let early_fault = test_support::scratch_fault(s_before, s_after, answer);
    let late_fault = test_support::scratch_fault(t_before, t_after, answer);
    test_support::write_line(rt, answer, sum_blend(out, given, early_fault, late_fault))?;
    if answer == 0 {
        *pair = given;
        keep(rows, test_support::word(text, 26), out);
    }
    Ok(())
}

// The same, into as much of an output as the line says.
fn mixed(
    rt: &impl Print,
    text: &[u8],
    early: &[u8],
    pair: &mut Pair,
    s: &mut [f32],
    t: &mut [f32],
    rows: &mut [u8],
) -> io::Result<()> {
    let mut out = unwritten();
    let room = test_support::word(text, 21);
    mixed_into(rt, text, early, pair, s, t, rows, &mut out[..room])
}

// The reading of the rows given so far, as a picture of a line's sides, on the chart that its second plane is.
fn reading(text: &[u8], rows: &[u8]) -> Result<ChartReading, Refusal> {
    let chart = test_support::plane(text, text, 1);
    let len = test_support::word(text, 13);
    let w = test_support::word(text, 0);
    let h = test_support::word(text, 1);
    let whole = Rectangle {
        left: 0,
        top: 0,
        width: w,
        height: h,
    };
    colorimetry::chart_reading(&chart[..len], whole, w, h, rows)
}

// A reading as numbers: the indices and the weight, 99 for none, the whole-number means and the number of pixels.
fn reading_numbers(r: ChartReading) -> [usize; 7] {
    [
        r.nearest.unwrap_or(99),
        r.between.map_or(99, |mix| mix.first),
        r.between.map_or(99, |mix| mix.weight),
        usize::from(r.whole[0]),
        usize::from(r.whole[1]),
        usize::from(r.whole[2]),
        r.pixels,
    ]
}

// Makes a line's reading and writes its line: the sum is of the reading's numbers. Those of a refused one are of no pixels.
fn read(rt: &impl Print, text: &[u8], rows: &[u8]) -> io::Result<()> {
    let (answer, numbers) = match reading(text, rows) {
        Ok(r) => (0, reading_numbers(r)),
        Err(why) => (usize::from(why.number()), [99, 99, 99, 0, 0, 0, 0]),
    };
    test_support::write_line(rt, answer, test_support::sum_numbers(0, &numbers))
}

// Makes a line's call with as much of the fronts of both scratches as the lines say.
fn replay(
    rt: &impl Print,
    text: &[u8; 142],
    early: &[u8; 142],
    pair: &mut Pair,
    s: &mut [f32],
    t: &mut [f32],
    rows: &mut [u8],
) -> io::Result<()> {
    let space = test_support::long(text, 19);
    let early_space = test_support::long(early, 19).min(s.len());
    let s_space = space.min(s.len());
    let t_space = space.min(t.len());
    match test_support::kind(text) {
        b'c' => read(rt, text, rows),
        b'm' => mixed(
            rt,
            text,
            early,
            pair,
            &mut s[..early_space],
            &mut t[..t_space],
            rows,
        ),
        b'p' | b't' | b'u' => lone(rt, text, &mut pair.late, &mut t[..t_space], rows),
        _ => lone(rt, text, &mut pair.early, &mut s[..s_space], rows),
    }
}

// Makes the calls of all lines, which have 142 bytes each, the newline too. The list ends where fewer are left. A line of kind e is no
// call: it is kept as what speaks of the early picture.
fn replay_all<R: Read>(
    rt: &impl Print,
    input: &mut R,
    s: &mut [f32],
    t: &mut [f32],
    rows: &mut [u8],
) -> io::Result<()> {
    let mut early = [0u8; 142];
    let mut pair = Pair {
        early: nobody(),
        late: nobody(),
    };
    for _ in 0..test_support::LINES {
        let Some(text) = test_support::read_line(input)? else {
            break;
        };
        match text[0] {
            b'e' => early = text,
            _ => replay(rt, &text, &early, &mut pair, s, t, rows)?,
        }
    }
    Ok(())
}

// Scratch before the first call, not-a-number throughout, so that a value which is read before it was written shows.
fn scratch() -> [f32; 20_000] {
    [0.0 / 0.0; 20_000]
}

// The picture before the first row.
fn no_rows() -> [u8; 4_096] {
    [0; 4_096]
}

fn main(rt: HostRuntime) -> io::Result<()> {
    let mut s = scratch();
    let mut t = scratch();
    let mut rows = no_rows();
    replay_all(&rt, &mut rt.stdin(), &mut s, &mut t, &mut rows)
}
