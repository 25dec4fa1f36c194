// Replays the stored list of patches and readings on standard input, and writes for each its answer, how many pixels it is of, what was
// given and the whole-number means. oracle/patch-cases made the list and what must be written for it: a line of 202 bytes for each call, a kind and 40
// words of four hex digits. A patch has
// left(3) top(3) width(3) height(3) w h len seed shape, 23 of 0;
// kind p makes Rattle's call and kind q C's. A reading, of kind c by Rattle's call and d by C's, has the same 17 words, then
// chart_len chart_seed chart_shape, 20 of 0.
// A line of kind b or k is no call: it spells the bytes that pictures, or charts, of shape 3 have in the calls behind it.
#![tactic(auto)]

ghost use Rattle.std.specs.Prelude.{◌<◌};

use colorimetry::{Between, ChartReading, Patch, Patched};
use ffi::{ChromaChartReading, ChromaPatch, ChromaRectangle};
use laws::Refusal;
use reconstruction::Rectangle;
use std::io;
use std::io::Print;
use test_support::Shape;

// A line's rectangle.
fn rectangle(text: &[u8]) -> Rectangle {
    Rectangle {
        left: test_support::value(text, 0),
        top: test_support::value(text, 3),
        width: test_support::value(text, 6),
        height: test_support::value(text, 9),
    }
}

// The bits of a mean. A not-a-number has none that are known, and gives those that no number has.
fn bits(x: f64) -> u64 {
    if x.is_nan() { u64::MAX } else { x.to_bits() }
}

// Writes the bits of the three means.
fn write_mean(rt: &impl Print, mean: [f64; 3]) -> io::Result<()> {
    let [r, g, b] = mean;
    print!(rt; " {:016x} {:016x} {:016x}", bits(r), bits(g), bits(b))
}

// Writes the three whole-number means.
fn write_whole(rt: &impl Print, whole: [u8; 3]) -> io::Result<()> {
    let [r, g, b] = whole;
    print!(rt; " {r} {g} {b}")
}

// Writes the means, or that there are none.
fn write_patch(rt: &impl Print, patch: Patch) -> io::Result<()> {
    match patch {
        Patch::Mean(r, g, b) => write_mean(rt, [r, g, b]),
        Patch::Nothing => print!(rt; " nothing"),
    }
}

// Writes the line of a patch. That of a refused one is of no pixels.
fn write_patched(rt: &impl Print, patched: Result<Patched, Refusal>) -> io::Result<()> {
    match patched {
        Ok(p) => {
            print!(rt; "0 {}", p.pixels)?;
            write_patch(rt, p.patch)?;
            write_whole(rt, p.whole)?;
            println!(rt)
        }
        Err(why) => println!(rt; "{} 0 nothing 0 0 0", why.number()),
    }
}

// Makes the call of a patch of a picture and writes its line.
fn patch(rt: &impl Print, text: &[u8], rgb: &[u8]) -> io::Result<()> {
    let patched = colorimetry::patch_mean(
        rectangle(text),
        test_support::size(text, 12),
        test_support::size(text, 13),
        rgb,
    );
    write_patched(rt, patched)
}

// A line's rectangle in C's form.
fn c_rectangle(text: &[u8]) -> ChromaRectangle {
    let r = rectangle(text);
    ChromaRectangle {
        left: r.left,
        top: r.top,
        width: r.width,
        height: r.height,
    }
}

// Writes the line of a patch in C's form, what is 0 beside nothing too.
fn write_c_patch(rt: &impl Print, p: ChromaPatch) -> io::Result<()> {
    print!(rt; "{} {} {}", p.refusal, p.pixels, p.given)?;
    write_mean(rt, p.mean)?;
    write_whole(rt, p.whole)?;
    println!(rt)
}

// Makes the call of a patch as C makes it and writes its line.
fn c_patch(rt: &impl Print, text: &[u8], rgb: &[u8]) -> io::Result<()> {
    let patched = ffi::chroma_patch(
        c_rectangle(text),
        test_support::size(text, 12),
        test_support::size(text, 13),
        rgb,
    );
    write_c_patch(rt, patched)
}

// Writes the nearest shade and how far it is, or that there is none.
fn write_nearest(rt: &impl Print, nearest: Option<usize>, off: u32) -> io::Result<()> {
    match nearest {
        Some(shade) => print!(rt; " {shade} {off}"),
        None => print!(rt; " nothing"),
    }
}

// Writes the nearest mix and how far it is, or that there is none.
fn write_between(rt: &impl Print, between: Option<Between>, off: u32) -> io::Result<()> {
    match between {
        Some(mix) => print!(rt; " {} {} {off}", mix.first, mix.weight),
        None => print!(rt; " nothing"),
    }
}

// Writes the line of a reading. That of a refused one is of no pixels.
fn write_reading(rt: &impl Print, reading: Result<ChartReading, Refusal>) -> io::Result<()> {
    match reading {
        Ok(r) => {
            print!(rt; "0 {}", r.pixels)?;
            write_nearest(rt, r.nearest, r.nearest_off)?;
            write_between(rt, r.between, r.between_off)?;
            write_whole(rt, r.whole)?;
            println!(rt)
        }
        Err(why) => println!(rt; "{} 0 nothing nothing 0 0 0", why.number()),
    }
}

// Makes the call of a reading and writes its line.
fn reading(rt: &impl Print, text: &[u8], chart: &[u8], rgb: &[u8]) -> io::Result<()> {
    let read = colorimetry::chart_reading(
        chart,
        rectangle(text),
        test_support::size(text, 12),
        test_support::size(text, 13),
        rgb,
    );
    write_reading(rt, read)
}

// Writes the line of a reading in C's form, what is 0 beside nothing too.
fn write_c_reading(rt: &impl Print, r: ChromaChartReading) -> io::Result<()> {
    print!(rt; "{} {} {}", r.refusal, r.pixels, r.given)?;
    print!(rt; " {} {}", r.nearest, r.nearest_off)?;
    print!(rt; " {} {} {}", r.pair, r.weight, r.between_off)?;
    write_whole(rt, r.whole)?;
    println!(rt)
}

// Makes the call of a reading as C makes it and writes its line.
fn c_reading(rt: &impl Print, text: &[u8], chart: &[u8], rgb: &[u8]) -> io::Result<()> {
    let read = ffi::chroma_chart_reading(
        chart,
        c_rectangle(text),
        test_support::size(text, 12),
        test_support::size(text, 13),
        rgb,
    );
    write_c_reading(rt, read)
}

// Makes the call that a line's kind names.
fn call(rt: &impl Print, text: &[u8], chart: &[u8], rgb: &[u8]) -> io::Result<()> {
    match test_support::byte(text, 0) {
        b'q' => c_patch(rt, text, rgb),
        b'c' => reading(rt, text, chart, rgb),
        b'd' => c_reading(rt, text, chart, rgb),
        _ => patch(rt, text, rgb),
    }
}

// The bytes that words k to k+2 of a line speak of, length, seed and shape, at the front of a buffer.
fn bytes(text: &[u8], k: usize, spelling: &[u8]) -> [u8; 65_536]
    requires { k < 100 }
{
    let len = test_support::word(text, k);
    let seed = test_support::word(text, k + 1);
    match test_support::word(text, k + 2) {
        3 => test_support::spelled_plane(len, spelling, 0),
        shape => test_support::grown(len, seed, Shape::from(shape)),
    }
}

// Makes a line's call with the picture and the chart that the line speaks of.
fn replay(
    rt: &impl Print,
    text: &[u8; 202],
    pixels: &[u8; 202],
    shades: &[u8; 202],
) -> io::Result<()> {
    let rgb = bytes(text, 14, pixels);
    let chart = bytes(text, 17, shades);
    let len = test_support::word(text, 14);
    let chart_len = test_support::word(text, 17);
    call(rt, text, &chart[..chart_len], &rgb[..len])
}

// A line has 202 bytes, its newline too; the list ends where fewer are left.
fn main(rt: HostRuntime) -> io::Result<()> {
    let mut input = rt.stdin();
    let mut pixels = [0u8; 202];
    let mut shades = [0u8; 202];
    for _ in 0..test_support::LINES {
        let Some(text) = test_support::read_line(&mut input)? else {
            break;
        };
        match text[0] {
            b'b' => pixels = text,
            b'k' => shades = text,
            _ => replay(&rt, &text, &pixels, &shades)?,
        }
    }
    Ok(())
}
