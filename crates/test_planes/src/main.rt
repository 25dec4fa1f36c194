// Replays the stored list of whole planes on standard input, triangular (t), linear (l, e) and guided (g, y), and writes for each its answer and the sum of
// what it left. oracle/plane-cases made the list and what must be written for it: a line of 77 bytes for each call, a kind and 15 words of
// four hex digits:
// w h rh rv cw ch sample_bytes maxval(2) stride plane_len space(2) room seed.
// The plane of a line is chroma; in a guided call of kind `y` it is luma. The kinds u, m, h and z are t, l, g and y with planes whose samples
// are at most the maxval. Where the kind is a capital, the words rh and rv have the axis'
// siting as their first digit, and its numerator less 1 as their second, and the word sample_bytes has the range as its first digit.
#![tactic(auto)]

ghost use Rattle.std.specs.Prelude.{◌<◌};

use image::Plane;
use laws::Refusal;
use std::io;
use std::io::Print;
use test_support::Shape;

// Scratch that holds one value throughout, so that the sum shows a call that writes where it may not.
fn marked() -> [f32; 200_000] {
    [1.5; 200_000]
}

// An output that no call has written: it holds one value throughout, so that the sum shows which were written.
fn unwritten() -> [u16; 65_536] {
    [42_405; 65_536]
}

// The seed that the other plane's bytes are grown from, the same for all lines.
const OTHER: usize = 7;

// How far apart the other plane's rows begin, with room for samples of two bytes. A picture wider than 8,192 is refused whatever the stride
// is.
fn other_stride(w: usize) -> usize {
    if w <= 8_192 { 2 * w } else { 0 }
}

// A line's kind: the letter itself, or the one before it where the letter says that samples are at most the maxval.
fn kind(text: &[u8]) -> u8 {
    match test_support::kind(text) {
        b'u' => b't',
        b'm' => b'l',
        b'h' => b'g',
        b'z' => b'y',
        letter => letter,
    }
}

// A plane of n bytes, n < 65,536, by a line's kind: with samples that are at most the maxval, or for kind `e` samples of two bytes at their
// ends, or bytes of all values.
fn drawn(text: &[u8], n: usize, seed: usize) -> [u8; 65_536]
    requires { n < 65536 }
{
    let letter = test_support::kind(text);
    if letter != kind(text) {
        let most = test_support::long(text, 7) as u32;
        return test_support::grown_held(n, seed, test_support::size(text, 6), most);
    }
    let shape = if letter == b'e' {
        Shape::Ends
    } else {
        Shape::Wide
    };
    test_support::grown(n, seed, shape)
}

// The answer to a guided plane. The plane that isn't the line's, luma but for kind `y`, is the same 20,000 bytes for all lines of its kind and
// maxval.
fn guided(text: &[u8], plane: Plane<'_>, s: &mut [f32], out: &mut [u16]) -> Result<(), Refusal> {
    let layout = test_support::layout(text);
    let drawn = drawn(text, 20_000, OTHER);
    let other = test_support::front(&drawn, 20_000, other_stride(layout.w));
    if kind(text) == b'y' {
        return reconstruction::guided_plane(layout, plane, other, s, out);
    }
    reconstruction::guided_plane(layout, other, plane, s, out)
}

// The answer to the call that a line's kind names.
fn called(text: &[u8], plane: Plane<'_>, s: &mut [f32], out: &mut [u16]) -> Result<(), Refusal> {
    let layout = test_support::layout(text);
    match kind(text) {
        b't' => reconstruction::triangular_plane(layout, plane, out),
        b'l' | b'e' => reconstruction::linear_plane(layout, plane, s, out),
        _ => guided(text, plane, s, out),
    }
}

// Makes a line's call and writes what came of it. The sum is of all of `out`, and of the scratch that the call may not touch.
fn write_call(
    rt: &impl Print,
    text: &[u8],
    plane: Plane<'_>,
    s: &mut [f32],
    out: &mut [u16],
) -> io::Result<()> {
    let answer = test_support::number(called(text, plane, s, out));
    let sum = test_support::sum_values(0, out);
    let spared = test_support::scratch_part(text, answer);
    test_support::write_line(rt, answer, test_support::sum_floats(sum, s, spared))
}

// Makes a line's call with scratch and `out` that no call has touched, as long as the line says.
fn replay(rt: &impl Print, text: &[u8]) -> io::Result<()> {
    let plane_len = test_support::word(text, 10);
    let space = test_support::long(text, 11).min(200_000);
    let room = test_support::word(text, 13);
    let drawn = drawn(text, plane_len, test_support::word(text, 14));
    let plane = test_support::front(&drawn, plane_len, test_support::size(text, 9));
    let mut s = marked();
    let mut out = unwritten();
    write_call(rt, text, plane, &mut s[..space], &mut out[..room])
}

// A line has 77 bytes, its newline too; the list ends where fewer are left.
fn main(rt: HostRuntime) -> io::Result<()> {
    let mut input = rt.stdin();
    for _ in 0..test_support::LINES {
        let Some(text) = test_support::read_line::<77, _>(&mut input)? else {
            break;
        };
        replay(&rt, &text)?;
    }
    Ok(())
}
