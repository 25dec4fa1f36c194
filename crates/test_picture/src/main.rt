// Replays the stored list of inputs of the picture program on standard input, and writes for each the call's answer and the sum of what it
// left. All share one scratch, which is not-a-number at first and never cleared. oracle/picture-cases made the list and what must be written
// for it: a line of 17 bytes for each piece of an input and for its end, a kind and three words of four hex digits; its head says which kinds
// there are.
#![tactic(auto)]

ghost use Rattle.std.specs.Prelude.{◌≤◌, length, IfOk};

use laws::Refusal;
use std::io;
use std::io::{Print, Read};
use test_support::Shape;

// Scratch before the first call, not-a-number throughout, as long as the program's own: `SCRATCH` of ycbcrtoppm, 32 · 128 + 8 · 128.
fn scratch() -> [f32; 5_120] {
    [0.0 / 0.0; 5_120]
}

// An output that no call has written, one value throughout, as long as the program's own: `OUT` of ycbcrtoppm, 16 + 3 · 49,152.
fn unwritten() -> [u8; 147_472] {
    [160; 147_472]
}

// Copies the source's bytes from index `from` up to but not with `to` to the front of a room; gives how many there was room for.
fn copied(source: &[u8], from: usize, to: usize, room: &mut [u8]) -> usize
    ensures { result ≤ length room.new }
{
    if to < from {
        return 0;
    }
    let n = (to - from).min(room.len());
    for (i, b) in room[..n].iter_mut().enumerate() {
        *b = test_support::byte(source, from + i);
    }
    n
}

// Puts `count` bytes by `test_support::grow` to the front of a room; gives how many there was room for.
fn grown(count: usize, seed: usize, shape: Shape, room: &mut [u8]) -> usize
    ensures { result ≤ length room.new }
{
    let n = count.min(room.len());
    test_support::grow(&mut room[..n], seed, shape);
    n
}

// Puts the bytes of a line's first two words to the front of a room, as many as the digit says that is its kind.
fn spelled(text: &[u8], room: &mut [u8]) -> usize
    ensures { result ≤ length room.new }
{
    let a = test_support::word(text, 0);
    let b = test_support::word(text, 1);
    let bytes = ((a * 65_536 + b) as u32).to_be_bytes();
    let count = usize::from(test_support::byte(text, 0) % 16);
    copied(&bytes, 0, count, room)
}

// Puts the piece of the input that a line speaks of to the front of a room; gives how many bytes it has. It is a part of the base, grown
// bytes, one byte again and again, or bytes that the line spells.
fn put_piece(text: &[u8], base: &[u8], room: &mut [u8]) -> usize
    ensures { result ≤ length room.new }
{
    let a = test_support::word(text, 0);
    let b = test_support::word(text, 1);
    match test_support::byte(text, 0) {
        b'b' => copied(base, a, b, room),
        b'g' => grown(a, b, Shape::Wide, room),
        b'r' => grown(a, 0, Shape::Flat((b % 256) as u8), room),
        _ => spelled(text, room),
    }
}

// The sum of `out` and of the line that the program writes on a refusal.
fn refused_sum(why: Refusal, out: &[u8]) -> u32 {
    let line = picture::refusal_line(why.number());
    let len = line.len;
    let bytes = line.bytes;
    test_support::sum_bytes(test_support::sum_bytes(0, out), &bytes[..len])
}

// Writes a call's line. The sum is of `out` and of the length; on refusal, of `out`, of the refusal's line and of whether scratch was
// changed.
fn write_outcome(
    rt: &impl Print,
    outcome: Result<usize, Refusal>,
    out: &[u8],
    changed: bool,
) -> io::Result<()> {
    let (answer, sum) = match outcome {
        Ok(len) => (
            0,
            test_support::added(test_support::sum_bytes(0, out), test_support::low(len)),
        ),
        Err(why) => (
            usize::from(why.number()),
            test_support::added(refused_sum(why, out), u32::from(changed)),
        ),
    };
    test_support::write_line(rt, answer, sum)
}

// Calls `picture` and writes its line.
fn called(rt: &impl Print, input: &[u8], s: &mut [f32], out: &mut [u8]) -> io::Result<()> {
    let before = test_support::sum_floats(0, s, 0);
    let outcome = picture::picture(input, s, out);
    write_outcome(
        rt,
        outcome,
        out,
        test_support::sum_floats(0, s, 0) != before,
    )
}

// Makes the call of an input whose last line this is, with scratch and `out` as long as the line says, or as long as there is.
fn call(rt: &impl Print, text: &[u8], input: &[u8], s: &mut [f32]) -> io::Result<()> {
    let mut out = unwritten();
    let space = test_support::word(text, 0).min(s.len());
    let room = test_support::long(text, 1).min(147_472);
    called(rt, input, &mut s[..space], &mut out[..room])
}

// Does what a line says: makes the input so far the base that pieces are taken from, calls `picture` with it, or adds a piece to it. Gives how
// long the input is then.
fn replayed(
    rt: &impl Print,
    text: &[u8],
    base: &mut [u8],
    input: &mut [u8],
    len: usize,
    s: &mut [f32],
) -> io::Result<usize>
    requires { len ≤ length input.old }
    ensures { IfOk result (λ n. n ≤ length input.new) }
{
    let kind = test_support::byte(text, 0);
    if kind == b'=' {
        copied(input, 0, len, base);
        return Ok(0);
    }
    if kind == b'c' {
        call(rt, text, &input[..len], s)?;
        return Ok(0);
    }
    Ok(len + put_piece(text, base, &mut input[len..]))
}

// Takes all lines, which have 17 bytes each, the newline too. The list ends where fewer are left.
fn replay_all<R: Read>(
    rt: &impl Print,
    list: &mut R,
    base: &mut [u8],
    input: &mut [u8],
    s: &mut [f32],
) -> io::Result<()> {
    let mut len = 0;
    for _ in 0..test_support::LINES {
        let Some(text) = test_support::read_line::<17, _>(list)? else {
            break;
        };
        len = replayed(rt, &text, base, input, len, s)?;
    }
    Ok(())
}

// The base and the input have 65,536 bytes each, more than the longest input that the program takes.
fn main(rt: HostRuntime) -> io::Result<()> {
    let mut base = test_support::large_buffer();
    let mut input = test_support::large_buffer();
    let mut s = scratch();
    replay_all(&rt, &mut rt.stdin(), &mut base, &mut input, &mut s)
}
