// The planes that calls are handed: grown from a seed by a generator that oracle/*-cases has too, or, where no seed gives the bytes that are
// wanted, spelled by a line of their own.
ghost use Rattle.std.specs.Prelude.{◌≡◌, ◌≤◌, ◌<◌, length};

use crate::checksums::low;
use crate::words::{long, size, spelled, word};
use image::{Plane, Planes};

// The next state of a linear congruential generator, modulo 2^32.
fn next(state: u32) -> u32 {
    state.wrapping_mul(1_103_515_245).wrapping_add(12_345)
}

// Byte i of a plane whose samples of two bytes are 0, 1, 65,534 or 65,535: the upper byte, at odd places, is 255 or 0 by its state's upper
// bit; the lower one, before it, is 254 or 0 by the same bit, and one more by the upper bit of its own state.
fn end_byte(state: u32, i: usize) -> u8 {
    let upper = (state >> 31) as u8;
    if i % 2 == 1 {
        upper * 255
    } else {
        (next(state) >> 31) as u8 * 254 + upper
    }
}

// Inner: what bytes a plane has that is grown.
#[derive(Clone, Copy)]
pub enum Shape {
    // All values, from the state's upper eight bits.
    Wide,
    // The sixteen smallest values, from the state's upper four bits.
    Narrow,
    // All values at even places and 0 at odd ones, which are samples of two bytes up to 255.
    Low,
    // Samples of two bytes at their ends (`end_byte`).
    Ends,
    // One value throughout.
    Flat(u8),
}

// The shape that a line's number stands for: a number that is no other's is a flat plane of its own low byte.
impl From<usize> for Shape {
    fn from(n: usize) -> Shape {
        match n {
            0 => Shape::Wide,
            1 => Shape::Narrow,
            2 => Shape::Flat(77),
            4 => Shape::Low,
            5 => Shape::Ends,
            _ => Shape::Flat((n % 256) as u8),
        }
    }
}

// Byte i of a plane by its shape.
fn shaped(state: u32, shape: Shape, i: usize) -> u8 {
    match shape {
        Shape::Wide => (state >> 24) as u8,
        Shape::Narrow => (state >> 28) as u8,
        Shape::Low => { if i % 2 == 0 { (state >> 24) as u8 } else { 0 } }
        Shape::Ends => end_byte(state, i),
        Shape::Flat(b) => b,
    }
}

// Fills a plane with a byte for each of the generator's states behind a seed, and the place that it stands at.
fn grow_by<F: Fn(u32, usize) -> u8>(plane: &mut [u8], seed: usize, byte: F)
    requires { F.IsAlwaysCallable byte }
{
    let mut state = low(seed);
    for (i, b) in plane.iter_mut().enumerate() {
        state = next(state);
        *b = byte(state, i);
    }
}

// Inner: fills a plane with bytes of a shape, from the generator's states behind a seed.
pub fn grow(plane: &mut [u8], seed: usize, shape: Shape) {
    grow_by(plane, seed, |state, i| shaped(state, shape, i));
}

// Inner: a buffer of 65,536 zeros.
pub fn large_buffer() -> [u8; 65_536]
    ensures { 65536 ≡ length result }
{
    [0; 65_536]
}

// Inner: a plane of n bytes at the front of a buffer of 65,536, which has room for as many as a word of four hex digits can say.
pub fn grown(n: usize, seed: usize, shape: Shape) -> [u8; 65_536]
    requires { n < 65536 }
{
    let mut plane = large_buffer();
    grow(&mut plane[..n], seed, shape);
    plane
}

// The upper sixteen bits of a state, as a sample that is at most `most`.
fn held(state: u32, most: u32) -> u32 {
    if 65_535 <= most {
        state >> 16
    } else {
        (state >> 16) % (most + 1)
    }
}

// Byte i of a plane whose samples are at most `most`. Samples of two bytes begin at even places, and are held by the state of their upper
// byte.
fn held_byte(state: u32, sample_bytes: usize, most: u32, i: usize) -> u8 {
    if sample_bytes == 1 {
        return (held(state, most) % 256) as u8;
    }
    if i % 2 == 0 {
        return (held(next(state), most) % 256) as u8;
    }
    (held(state, most) / 256 % 256) as u8
}

// Fills a plane with samples that are at most `most`, from the generator's states behind a seed.
fn grow_held(plane: &mut [u8], seed: usize, sample_bytes: usize, most: u32) {
    grow_by(plane, seed, |state, i| {
        held_byte(state, sample_bytes, most, i)
    });
}

// Inner: a plane of n bytes whose samples are at most `most`, at the front of a buffer like that of `grown`.
pub fn grown_held(n: usize, seed: usize, sample_bytes: usize, most: u32) -> [u8; 65_536]
    requires { n < 65536 }
{
    let mut plane = large_buffer();
    grow_held(&mut plane[..n], seed, sample_bytes, most);
    plane
}

// Fills a plane with the bytes that a line spells, from byte `from` of those on.
fn spell(plane: &mut [u8], spelling: &[u8], from: usize) {
    for (i, b) in plane.iter_mut().enumerate() {
        *b = spelled(spelling, from, i);
    }
}

// Inner: a plane of n bytes that a line spells from byte `from` on, at the front of a buffer like that of `grown`.
pub fn spelled_plane(n: usize, spelling: &[u8], from: usize) -> [u8; 65_536]
    requires { n < 65536 }
{
    let mut plane = large_buffer();
    spell(&mut plane[..n], spelling, from);
    plane
}

// Where plane k begins among spelled bytes: the three stand one after another.
fn start(text: &[u8], k: usize) -> usize {
    match k {
        0 => 0,
        1 => word(text, 12),
        _ => word(text, 12) + word(text, 13),
    }
}

// Makes plane k of the three that a line speaks of at the front of a buffer that is lent: 0 is Y, 1 Cb and 2 Cr. Shape 3 is spelled by
// `spelling`, a line of its own; the seeds of the others follow each other, so that no two are alike. The samples of shape 6 are at most the
// line's maxval. A buffer that was given back by value would be copied for each plane of each line.
fn put_plane(buffer: &mut [u8], text: &[u8], spelling: &[u8], k: usize)
    requires { (k < 3) × (65535 ≤ length buffer.old) }
{
    let n = word(text, 12 + k);
    let seed = word(text, 15) + k;
    let plane = &mut buffer[..n];
    match word(text, 16 + k) {
        3 => spell(plane, spelling, start(text, k)),
        6 => grow_held(plane, seed, size(text, 6), long(text, 7) as u32),
        shape => grow(plane, seed, Shape::from(shape)),
    }
}

// Inner: plane k of the three that a line speaks of, at the front of a buffer like that of `grown`.
pub fn plane(text: &[u8], spelling: &[u8], k: usize) -> [u8; 65_536]
    requires { k < 3 }
{
    let mut buffer = large_buffer();
    put_plane(&mut buffer, text, spelling, k);
    buffer
}

// Inner: the plane whose n bytes stand at the front of a buffer.
pub fn front(buffer: &[u8], n: usize, stride: usize) -> Plane<'_>
    requires { n ≤ length buffer.now }
{
    Plane {
        bytes: &buffer[..n],
        stride,
    }
}

// Inner: the three planes that a line speaks of, each at the front of a buffer like that of `grown`.
#[derive(Drop)]
pub struct Buffers {
    y: [u8; 65_536],
    cb: [u8; 65_536],
    cr: [u8; 65_536],
}

impl Buffers {
    // Inner: the buffers of a line; `spelling` is the line that spells planes of shape 3.
    pub fn new(text: &[u8], spelling: &[u8]) -> Buffers {
        let mut buffers = Buffers {
            y: large_buffer(),
            cb: large_buffer(),
            cr: large_buffer(),
        };
        put_plane(&mut buffers.y, text, spelling, 0);
        put_plane(&mut buffers.cb, text, spelling, 1);
        put_plane(&mut buffers.cr, text, spelling, 2);
        buffers
    }

    // Inner: the planes as the line's call is lent them, as long as words 12 to 14 say and with the strides in words 9 to 11.
    pub fn planes(&self, text: &[u8]) -> Planes<'_> {
        Planes {
            y: front(&self.y, word(text, 12), size(text, 9)),
            cb: front(&self.cb, word(text, 13), size(text, 10)),
            cr: front(&self.cr, word(text, 14), size(text, 11)),
        }
    }
}
