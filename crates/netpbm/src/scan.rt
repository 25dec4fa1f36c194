// What stands at a place of the input: whitespace, comments, digits, a number, the magic. Every function takes any place, past the end too, where
// nothing stands; so a header can be read to its end first and tested afterwards.
ghost use Rattle.std.specs.Prelude.{◌≡◌, true, ◌-◌, ◌≤◌, get_or};
ghost use Rattle.netpbm.specs.Bytes.{has_blank, has_digit, in_comment, is_space, past_spaces};
ghost use Rattle.netpbm.specs.Images.{has_magic};
ghost use Rattle.netpbm.specs.Inner.Held.{number_held, space_held};

use crate::ascii::{ends_comment, is_blank, is_digit, is_mark};

// A number that was read from its digits, and where they end.
#[derive(Clone, Copy)]
pub struct Number {
    pub value: usize,
    pub end: usize,
}

impl Number {
    // A value past this is held as this. It is more than every size and maxval that is accepted, so no test takes it for another, and
    // the product of two such values doesn't wrap.
    pub const MOST: usize = 65_536;
}

// Inner: whether the byte at `at` is whitespace; past the end none is.
#[tactic(auto, using(crate::proofs::Runs::blank_outside), unfolding(crate::specs::Bytes::has_blank))]
pub fn blank_at(input: &[u8], at: usize) -> bool
    ensures { result ≡ has_blank input.now at }
{
    input.get(at).is_some_and(|b| is_blank(*b))
}

// Whether a byte is whitespace, begins a comment or lies in one, which `inside` says.
fn is_space(inside: bool, b: u8) -> bool
    ensures { result ≡ is_space inside b }
{
    inside || is_blank(b) || is_mark(b)
}

// Whether the byte behind b lies in a comment; `inside` says whether b does.
fn in_comment(inside: bool, b: u8) -> bool
    ensures { result ≡ in_comment inside b }
{
    if inside { !ends_comment(b) } else { is_mark(b) }
}

// Inner: whether the byte at `at` is whitespace, begins a comment or lies in one, which `inside` says; past the end none is or does.
#[tactic(auto, using(crate::proofs::Runs::space_here, crate::proofs::Runs::space_outside), unfolding(crate::specs::Inner::Held::space_held))]
pub fn space_at(input: &[u8], at: usize, inside: bool) -> bool
    ensures { result ≡ space_held input.now inside at }
{
    input.get(at).is_some_and(|b| is_space(inside, *b))
}

// Inner: whether the byte at `at` is a digit; past the end none is.
#[tactic(auto, using(crate::proofs::Runs::digit_outside), unfolding(crate::specs::Bytes::has_digit))]
pub fn digit_at(input: &[u8], at: usize) -> bool
    ensures { result ≡ has_digit input.now at }
{
    input.get(at).is_some_and(|b| is_digit(*b))
}

// Inner: whether the two bytes of a PGM's magic, `P5`, stand at `at`.
#[tactic(auto, using(crate::proofs::Runs::magic_here, crate::proofs::Runs::magic_outside))]
pub fn magic_at(input: &[u8], at: usize) -> bool
    ensures { result ≡ has_magic input.now at }
{
    at <= input.len() && input[at..].starts_with(b"P5")
}

// Inner: where the whitespace that begins at `at` ends, comments counted; `at` itself where none stands there. A comment that never ends
// is whitespace up to the input's end, where no digit stands, so that its header is turned down as one with a number missing.
//
// This loop and that of `number_at` move a place by hand, since it may begin past the end: a `for` over the places would not give it back.
pub fn skip_spaces(input: &[u8], at: usize) -> usize
    ensures { result ≡ past_spaces input.now at }
{
    let mut end = at;
    let mut inside = false;
    while space_at(input, end, inside) {
        inside = in_comment(inside, input[end]);
        end += 1;
    }
    end
}

// The value of the digit at `at`. That it is 9 at most is promised, since the sum in `number_at` must not wrap.
#[tactic(auto, using(crate::proofs::Runs::digit_inside, crate::proofs::Runs::digit_range))]
fn digit_value(input: &[u8], at: usize) -> usize
    requires { has_digit input.now at ≡ true }
    ensures { (result ≡ get_or input.now at 0 - 48) × (result ≤ 9) }
{
    usize::from(input[at] - b'0')
}

// Inner: the number whose digits begin at `at`, however many they are; 0 where none stands there.
pub fn number_at(input: &[u8], at: usize) -> Number
    ensures { result ≡ number_held input.now at }
{
    let mut value = 0;
    let mut end = at;
    while digit_at(input, end) {
        value = (value * 10 + digit_value(input, end)).min(Number::MOST);
        end += 1;
    }
    Number { value, end }
}
