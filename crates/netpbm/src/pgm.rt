// One PGM image of the input: its header, the first thing that is wrong with it, and where its rows stand.
ghost use Rattle.std.specs.Prelude.{◌≡◌, ◌-◌, ◌≤◌, ltb, length};
ghost use Rattle.laws.specs.Refusals.{first};
ghost use Rattle.netpbm.specs.Images.{maxval_of, sample_bytes};
ghost use Rattle.netpbm.specs.Inner.Held.{held, field_held, header_held, rows_held, other_maxval, held_tests, image_held};

use crate::scan::{blank_at, digit_at, magic_at, number_at, skip_spaces, space_at};
use laws::Refusal;

// A number of a header: whether whitespace and digits stand where it should, the digits' value, and where they end. It is no Option, since a
// header is read to its end before any of its numbers is tested, from where the one before it ends.
#[derive(Clone, Copy)]
pub struct Field {
    pub good: bool,
    pub value: usize,
    pub end: usize,
}

// The three numbers of a header.
#[derive(Clone, Copy)]
pub struct Header {
    pub width: Field,
    pub height: Field,
    pub maxval: Field,
}

// An image that nothing is wrong with: its sides, its maxval, and where its rows begin and end.
#[derive(Clone, Copy)]
pub struct Image {
    pub w: usize,
    pub h: usize,
    pub maxval: usize,
    pub rows: usize,
    pub end: usize,
}

impl Image {
    // The width of the widest image that document 01 has the program take.
    pub const WIDTH: usize = 128;

    // The greatest maxval that an image may have, which is the most that a sample of two bytes holds.
    pub const MAXVAL: usize = 65_535;

    // The greatest maxval at which a sample is one byte.
    pub const BYTE: usize = 255;
}

// The number of a header that begins with the whitespace at `at`, comments counted.
#[tactic(auto, unfolding(crate::specs::Images::field_end, crate::specs::Inner::Held::number_held))]
fn field_at(input: &[u8], at: usize) -> Field
    ensures { result ≡ field_held input.now at }
{
    let start = skip_spaces(input, at);
    let good = space_at(input, at, false) && digit_at(input, start);
    let n = number_at(input, start);
    Field {
        good,
        value: n.value,
        end: n.end,
    }
}

// The header of the image whose magic stands at `at`. Its numbers are read before any is tested, which is safe because a number is read at
// every place, past the end too.
#[tactic(auto, using(crate::proofs::Fields::header_of))]
fn header_at(input: &[u8], at: usize) -> Header
    requires { (length input.now ≤ 49152) × (at ≤ length input.now) }
    ensures { result ≡ header_held input.now at }
{
    let width = field_at(input, at + 2);
    let height = field_at(input, width.end);
    let maxval = field_at(input, height.end);
    Header {
        width,
        height,
        maxval,
    }
}

// Inner: how many bytes a sample has in an image of this maxval.
#[tactic(auto, unfolding(crate::specs::Images::sample_bytes))]
pub fn sample_bytes(maxval: usize) -> usize
    ensures { result ≡ sample_bytes maxval }
{
    if Image::BYTE < maxval { 2 } else { 1 }
}

// How many bytes the rows of an image of this header have. That they are no more than 2^33 is promised, so that callers can add to them.
fn row_bytes(header: Header) -> usize
    requires { (header.width.value ≤ 65536) × (header.height.value ≤ 65536) }
    ensures { (result ≡ rows_held header) × (result ≤ 8589934592) }
{
    let width = header.width;
    let height = header.height;
    let maxval = header.maxval;
    width.value * height.value * sample_bytes(maxval.value)
}

// Whether a maxval is outside the span that an image's may have, or not the one that is wanted.
fn other_maxval(wanted: usize, maxval: usize) -> bool
    ensures { result ≡ other_maxval wanted maxval }
{
    laws::outside(1, Image::MAXVAL, maxval) || wanted != maxval
}

// Whether fewer than `due` bytes of `len` stand from `rows` on, which may lie past the end.
fn rows_missing(len: usize, rows: usize, due: usize) -> bool
    ensures { result ≡ ltb (len - rows) due }
{
    len.saturating_sub(rows) < due
}

// The first thing that is wrong with the image whose magic stands at `at` and whose header holds these numbers, where this maxval is wanted.
#[tactic(auto, unfolding(crate::specs::Inner::Held::held_tests))]
fn image_answer(input: &[u8], at: usize, header: Header, wanted: usize) -> Result<(), Refusal>
    requires { (header.width.value ≤ 65536) × (header.height.value ≤ 65536) × (header.maxval.end ≤ 49154) }
    ensures { result ≡ first (held_tests input.now at header wanted) }
{
    let width = header.width;
    let height = header.height;
    let maxval = header.maxval;
    let missing = rows_missing(input.len(), maxval.end + 1, row_bytes(header));
    laws::first([
        (!magic_at(input, at), Refusal::BadHeader),
        (!width.good, Refusal::BadHeader),
        (Image::WIDTH < width.value, Refusal::TooLarge),
        (!height.good, Refusal::BadHeader),
        (!maxval.good, Refusal::BadHeader),
        (other_maxval(wanted, maxval.value), Refusal::BadHeader),
        (!blank_at(input, maxval.end), Refusal::BadHeader),
        (missing, Refusal::TooLarge),
    ])
}

// The image whose magic stands at `at` and whose header this is, or what is wrong with it. The maxval that is wanted is the first image's.
#[tactic(auto, using(crate::proofs::Fields::limits, crate::proofs::Fields::image_of))]
fn image_with(input: &[u8], at: usize, header: Header, wanted: usize) -> Result<Image, Refusal>
    requires input_len_bound { (length input.now ≤ 49152) × (at ≤ length input.now) }
    requires header_value { (header ≡ header_held input.now at) × (wanted ≡ held (maxval_of input.now 0)) }
    ensures { result ≡ image_held input.now at }
{
    image_answer(input, at, header, wanted)?;
    let width = header.width;
    let height = header.height;
    let maxval = header.maxval;
    let rows = maxval.end + 1;
    Ok(Image {
        w: width.value,
        h: height.value,
        maxval: maxval.value,
        rows,
        end: rows + row_bytes(header),
    })
}

// Inner: the input's first image, or what is wrong with it. Its maxval is the one that it is held to.
#[tactic(auto, using(crate::proofs::Fields::maxval_held))]
pub fn first_image(input: &[u8]) -> Result<Image, Refusal>
    requires { length input.now ≤ 49152 }
    ensures { result ≡ image_held input.now 0 }
{
    let header = header_at(input, 0);
    let maxval = header.maxval;
    image_with(input, 0, header, maxval.value)
}

// Inner: the image that begins where another ends, or what is wrong with it. It is held to that one's maxval, which is the first image's.
pub fn image_after(input: &[u8], before: Image) -> Result<Image, Refusal>
    requires end_in_bounds { (length input.now ≤ 49152) × (before.end ≤ length input.now) }
    requires maxval_value { before.maxval ≡ held (maxval_of input.now 0) }
    ensures { result ≡ image_held input.now before.end }
{
    let at = before.end;
    image_with(input, at, header_at(input, at), before.maxval)
}
