// Replays the stored list of rounding, fmin, fmax and sample cases on standard input, and writes this library's answer to each: of the forms for
// one value and, of roundings by the grid, fmin and fmax, of those for sixteen, by which blocks go.
// oracle/rounding-cases made the list, lines `K AAAAAAAA BBBBBBBB` of a kind and two operands, and what must be written for it.
#![tactic(auto)]

use fround::{fmax_lanes, fmin_lanes};
use std::io;
use std::simd::f32x16;

// The plane whose four bytes are n's, the highest first.
fn plane(n: u32) -> [u8; 4] {
    n.to_be_bytes()
}

// The one-byte sample at an index of the plane of n's four bytes. Past its end it gives 2^16, which no sample is.
fn sample_one(n: u32, index: u32) -> u32 {
    let plane = plane(n);
    if index < 4 {
        u32::from(image::sample(&plane, 1, index as usize))
    } else {
        65_536
    }
}

// The two-byte sample at an index of the plane of n's four bytes. Past its end it gives 2^16, which no sample is.
fn sample_two(n: u32, index: u32) -> u32 {
    let plane = plane(n);
    if index < 2 {
        u32::from(image::sample(&plane, 2, index as usize * 2))
    } else {
        65_536
    }
}

// What no answer is, since every not-a-number counts as 2^32 - 1.
const NONE: u32 = 4_294_967_294;

// The answer that the form for one value gives, where each lane of the form for sixteen gives it too.
fn agreed(one: u32, lanes: [u32; 16]) -> u32 {
    if lanes == [one; 16] { one } else { NONE }
}

// A float rounded by the grid. The form for sixteen takes limits to 65,536, and the one for 256ths has that limit.
fn rounded(x: f32, max: u32) -> u32 {
    let one = fround::round_clamped_by_grid(x, max);
    if 65_536 < max {
        return one;
    }
    // A 256th of x is exact, or both are below a half.
    let centred = fround::centred_256ths(f32x16::splat(x / 256.0)).to_array();
    // By `as`: no From takes a u32 to an f32; the number is 65,536 at most.
    if max == 65_536 && centred != [one as f32 - 32_768.0; 16] {
        return NONE;
    }
    agreed(one, fround::rounded(f32x16::splat(x), max).to_array())
}

// The bits of each of sixteen floats.
fn lane_bits(lanes: f32x16) -> [u32; 16] {
    let floats = lanes.to_array();
    std::array::from_fn(|i| test_support::bits(floats[i]))
}

// The smaller of two floats.
fn smaller(x: f32, y: f32) -> u32 {
    let lanes = fmin_lanes(f32x16::splat(x), f32x16::splat(y));
    agreed(test_support::bits(fround::fmin(x, y)), lane_bits(lanes))
}

// The larger of two floats.
fn larger(x: f32, y: f32) -> u32 {
    let lanes = fmax_lanes(f32x16::splat(x), f32x16::splat(y));
    agreed(test_support::bits(fround::fmax(x, y)), lane_bits(lanes))
}

// The answer to a line: a number, or a float's bits. Where the kind is none of these it gives `NONE`.
fn answer(text: &[u8]) -> u32 {
    let a = test_support::eight(text, 2) as u32;
    let b = test_support::eight(text, 11) as u32;
    let x = test_support::float(a);
    match test_support::byte(text, 0) {
        b'g' => rounded(x, b),
        b'w' => fround::round_clamped_by_bits(x, b),
        b'n' => smaller(x, test_support::float(b)),
        b'x' => larger(x, test_support::float(b)),
        b'1' => sample_one(a, b),
        b'2' => sample_two(a, b),
        _ => NONE,
    }
}

// A line has 20 bytes, its newline too; the list ends where fewer are left.
fn main(rt: HostRuntime) -> io::Result<()> {
    let mut input = rt.stdin();
    for _ in 0..test_support::LINES {
        let Some(text) = test_support::read_line::<20, _>(&mut input)? else {
            break;
        };
        test_support::write_line(&rt, 0, answer(&text))?;
    }
    Ok(())
}
