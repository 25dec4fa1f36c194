// Replays the stored list of fills, refills and single pixels on standard input, and writes for each its answer and the sum of what it left.
// oracle/fill-cases made the list and what must be written for it: a line of 122 bytes for each call, a kind and 24 words of four hex
// digits. A fill's:
// w h rh rv cw ch sample_bytes maxval(2) y_stride cb_stride cr_stride y_len cb_len cr_len seed y_shape cb_shape cr_shape
// kernel size space(2) room. A pixel's: y(2) cb(2) cr(2) maxval(2) range, fifteen of 0. A line that is no call spells the bytes that planes of
// shape 3 have in the calls behind it. Where a fill's kind is a capital, the words rh and rv have the axis' siting as their first digit, and its numerator less 1 as their
// second, and the word sample_bytes has the range as its first digit.
#![tactic(auto)]

ghost use Rattle.std.specs.Prelude.{◌<◌};

mod refills;

use fill::ChromaUpsampling;
use image::Planes;
use kernels::{Rgb, YcbcrKernel};
use laws::Refusal;
use std::io;
use std::io::Print;
use test_support::Buffers;

// Inner: scratch that holds one value throughout, so that the sum shows a call that writes where it may not.
pub fn marked() -> [f32; 600_000] {
    [1.5; 600_000]
}

// Inner: an output that no call has written: it holds one value throughout, so that the sum shows which bytes were written.
pub fn unwritten() -> [u8; 65_536] {
    [160; 65_536]
}

// Writes the line of a single pixel: its refusal, or its three bytes in place of a sum.
fn write_pixel(rt: &impl Print, pixel: Result<Rgb, Refusal>) -> io::Result<()> {
    match pixel {
        Ok(rgb) => {
            let bytes = u32::from_be_bytes([0, rgb.r, rgb.g, rgb.b]);
            test_support::write_line(rt, 0, bytes)
        }
        Err(why) => test_support::write_line(rt, usize::from(why.number()), 0),
    }
}

// The 32-bit number in words k and k+1 of a line.
fn number(text: &[u8], k: usize) -> u32
    requires { k < 999 }
{
    test_support::long(text, k) as u32
}

// Makes the call of a pixel by the exact kernel and writes its line.
fn exact(rt: &impl Print, text: &[u8]) -> io::Result<()> {
    let pixel = reconstruction::ycbcr_frac_to_rgb8(
        number(text, 0),
        number(text, 2),
        number(text, 4),
        number(text, 6),
        test_support::range_of(test_support::word(text, 8) as u32),
    );
    write_pixel(rt, pixel)
}

// Makes the call of a pixel by the fixed kernel, which has no maxval, and writes its line.
fn fixed(rt: &impl Print, text: &[u8]) -> io::Result<()> {
    let pixel = reconstruction::ycbcr_to_rgb8_fixed16(
        number(text, 0),
        number(text, 2),
        number(text, 4),
    );
    write_pixel(rt, pixel)
}

// How a fill's chroma is reconstructed, which its line's kind says: `l` is linear, `g` guided.
fn upsampling(text: &[u8]) -> ChromaUpsampling {
    match test_support::kind(text) {
        b'l' => ChromaUpsampling::Linear,
        _ => ChromaUpsampling::LumaGuided,
    }
}

// Inner: the kernel that a fill's line names, 0 for the exact one.
pub fn kernel(text: &[u8]) -> YcbcrKernel {
    match test_support::word(text, 19) {
        0 => YcbcrKernel::Exact,
        _ => YcbcrKernel::FixedPoint16,
    }
}

// Makes the call of a fill and writes its line. The sum is of all of `out`, and of the scratch that the call may not touch.
fn fill_lent(
    rt: &impl Print,
    text: &[u8],
    planes: Planes<'_>,
    s: &mut [f32],
    out: &mut [u8],
) -> io::Result<()> {
    let answer = test_support::number(reconstruction::fill(
        test_support::layout(text),
        planes,
        upsampling(text),
        kernel(text),
        test_support::size(text, 20),
        s,
        out,
    ));
    let sum = test_support::sum_floats(
        test_support::sum_bytes(0, out),
        s,
        test_support::scratch_part(text, answer),
    );
    test_support::write_line(rt, answer, sum)
}

// Makes the call of a fill with scratch and `out` that no call has touched, as long as its line says. They are the locals of a function of
// their own: beside the planes' buffers each would be set twice.
fn fill_marked(rt: &impl Print, text: &[u8], planes: Planes<'_>) -> io::Result<()> {
    let mut s = marked();
    let mut out = unwritten();
    let space = test_support::long(text, 21).min(600_000);
    let room = test_support::word(text, 23);
    fill_lent(rt, text, planes, &mut s[..space], &mut out[..room])
}

// Makes the call of a fill with the three planes that its line speaks of.
fn fill(rt: &impl Print, text: &[u8], spelling: &[u8]) -> io::Result<()> {
    let buffers = Buffers::new(text, spelling);
    fill_marked(rt, text, buffers.planes(text))
}

// Makes the call that a line's kind names.
fn replay(
    rt: &impl Print,
    text: &[u8; 122],
    spelling: &[u8; 122],
    change: &[u8; 122],
) -> io::Result<()> {
    match test_support::kind(text) {
        b'e' => exact(rt, text),
        b'f' => fixed(rt, text),
        b'r' => refills::refill(rt, text, spelling, change),
        _ => fill(rt, text, spelling),
    }
}

// A line has 122 bytes, its newline too; the list ends where fewer are left. A line of kind `b` is no call: it is kept as the spelling; nor
// is one of kind `c`, which is kept as the change.
fn main(rt: HostRuntime) -> io::Result<()> {
    let mut input = rt.stdin();
    let mut spelling = [0u8; 122];
    let mut change = [0u8; 122];
    for _ in 0..test_support::LINES {
        let Some(text) = test_support::read_line(&mut input)? else {
            break;
        };
        match text[0] {
            b'b' => spelling = text,
            b'c' => change = text,
            _ => replay(&rt, &text, &spelling, &change)?,
        }
    }
    Ok(())
}
