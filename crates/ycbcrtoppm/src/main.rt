// 'The picture program' of document 01: three PGM images on standard input, a PPM or the line of a refusal on standard output.
//
// All that it decides is `picture::picture`'s; this reads, lends the memory and writes.
#![tactic(auto)]

ghost use Rattle.std.specs.Prelude.{◌≤◌, length, IfOk};
ghost use Rattle.ycbcrtoppm.specs.Inner.Lengths.{written_length};

use laws::Refusal;
use std::io;
use std::io::{Eprint, Print, Read, Write};

// How much is read: the longest input, netpbm's `Reading::LONGEST` of 49,152 bytes, and one more, by which a longer one is seen to be
// too long.
const INPUT: usize = 49_153;

// The most scratch that a picture asks for, 32 · cw + 8 · w floats: with netpbm's `Image::WIDTH` of 128 columns and as many cells that is
// 32 · 128 + 8 · 128.
const SCRATCH: usize = 5_120;

// The most that is written: the longest header, netpbm's `Line::ROOM` of 16 bytes, and three bytes for each byte of the longest input,
// 16 + 3 · 49,152. With `SCRATCH` and `OUT` refusals 9 and 10 are never given: `room_enough` of picture's proofs.
const OUT: usize = 147_472;

// Writes the picture that stands at the front of `out`, or the refusal's line, to standard output.
fn write_outcome(rt: &impl Print, outcome: Result<usize, Refusal>, out: &[u8]) -> io::Result<()>
    requires { written_length outcome ≤ length out.now }
{
    match outcome {
        Ok(n) => rt.write_all(&out[..n]),
        Err(why) => {
            let line = picture::refusal_line(why.number());
            let len = line.len;
            let bytes = line.bytes;
            rt.write_all(&bytes[..len])
        }
    }
}

// Reads the input to its end, which a read of no bytes is, or as much of it as `buf` has room for, or until a read fails. std's `read_exact`
// fails for an input that is shorter, which here is the usual one, and `read_to_end` wants a heap.
fn read_all<R: Read>(input: &mut R, buf: &mut [u8]) -> io::Result<usize>
    ensures { IfOk result (λ n. n ≤ length buf.new) }
{
    let mut len = 0;
    while len < buf.len() {
        let more = input.read(&mut buf[len..])?;
        if more == 0 {
            break;
        }
        len += more;
    }
    Ok(len)
}

// Writes a line to standard error: what failed, a colon, and the system's words for why. The number that std puts behind those is left out.
fn fail(rt: &impl Eprint, what: &str, error: io::Error) -> io::Result<()> {
    let mut text = [0u8; 256];
    let mut room = &mut text[..];
    write!(room, "{error}")?;
    let why = str::from_utf8(&text).unwrap_or("").trim_end_matches('\0');
    let words = why
        .split_once(" (os error ")
        .map_or(why, |(words, _)| words);
    eprintln!(rt; "{what}: {words}")
}

// Writes what comes of an input, or says on standard error why that couldn't be written.
fn answer(rt: &(impl Print + Eprint), input: &[u8]) -> io::Result<()> {
    let mut s = [0.0f32; SCRATCH];
    let mut out = [0u8; OUT];
    let outcome = picture::picture(input, &mut s, &mut out);
    match write_outcome(rt, outcome, &out) {
        Ok(()) => Ok(()),
        Err(error) => fail(rt, "ycbcrtoppm: standard output", error),
    }
}

// The status doesn't say what came of an input: where reading fails the program writes nothing but why, to standard error, and the script
// ycbcrtoppm, which runs it, tells a picture, a refusal and nothing apart by the first line of standard output. Only where standard error
// can't be written either, it ends with an error.
fn main(rt: HostRuntime) -> io::Result<()> {
    let mut input = [0u8; INPUT];
    match read_all(&mut rt.stdin(), &mut input) {
        Ok(n) => answer(&rt, &input[..n]),
        Err(error) => fail(&rt, "ycbcrtoppm: standard input", error),
    }
}
