// What the words of a line say together: the layout that its call is handed, and how much of scratch it may touch.
ghost use Rattle.std.specs.Prelude.{◌<◌};

use crate::words::{byte, long, size, word};
use image::{Layout, Range};
use laws::{Axis, Siting};

// Whether a line's kind is a capital, which says that the words of its ratios and of its sample bytes hold more than these.
fn capital(text: &[u8]) -> bool {
    byte(text, 0).is_ascii_uppercase()
}

// Inner: a line's kind, as a small letter.
pub fn kind(text: &[u8]) -> u8 {
    byte(text, 0).to_ascii_lowercase()
}

// The ratio in word k of a line.
fn ratio(text: &[u8], k: usize) -> usize
    requires { k < 999 }
{
    if capital(text) {
        word(text, k) % 256
    } else {
        size(text, k)
    }
}

// Inner: the siting in word k of a line, as C has it: the first digit where the kind is a capital, and else 0. It is a number, since C's
// calls are handed digits too that stand for no siting.
pub fn siting(text: &[u8], k: usize) -> u32
    requires { k < 999 }
{
    if capital(text) {
        (word(text, k) / 4_096) as u32
    } else {
        0
    }
}

// Inner: the numerator in word k of a line: one more than the second digit, and 0 for f, where the kind is a capital, and else 1.
pub fn numerator(text: &[u8], k: usize) -> usize
    requires { k < 999 }
{
    if capital(text) {
        (word(text, k) / 256 + 1) % 16
    } else {
        1
    }
}

// The siting that a number stands for: 1 is co-sited.
fn siting_of(n: u32) -> Siting {
    if n == 1 {
        Siting::CoSited
    } else {
        Siting::Centred
    }
}

// The axis whose siting and numerator are in word k of a line.
fn axis(text: &[u8], k: usize) -> Axis
    requires { k < 999 }
{
    Axis {
        siting: siting_of(siting(text, k)),
        num: numerator(text, k),
    }
}

// The sample bytes of a line's layout, which stand in word 6.
fn sample_bytes(text: &[u8]) -> usize {
    if capital(text) {
        word(text, 6) % 256
    } else {
        size(text, 6)
    }
}

// Inner: the range of a line's layout, as C has it: the first digit of the sample bytes' word where the kind is a capital, and else 0. It is
// a number, since C's calls are handed digits too that stand for no range.
pub fn range(text: &[u8]) -> u32 {
    if capital(text) {
        (word(text, 6) / 4_096) as u32
    } else {
        0
    }
}

// Inner: the range that a number stands for: 1 is studio.
pub fn range_of(n: u32) -> Range {
    if n == 1 { Range::Studio } else { Range::Full }
}

// Inner: the layout that a line begins with. It takes nine words, the maxval two of them.
pub fn layout(text: &[u8]) -> Layout {
    Layout {
        w: size(text, 0),
        h: size(text, 1),
        rh: ratio(text, 2),
        rv: ratio(text, 3),
        cw: size(text, 4),
        ch: size(text, 5),
        across: axis(text, 2),
        down: axis(text, 3),
        sample_bytes: sample_bytes(text),
        maxval: long(text, 7) as u32,
        range: range_of(range(text)),
    }
}

// Inner: how many floats at the front of scratch a line's call may touch: the 32·cw + 8·w that it needs, or none where it was refused.
// What stands behind them is summed, so that a call that writes there is seen.
pub fn scratch_part(text: &[u8], answer: usize) -> usize {
    if answer != 0 {
        return 0;
    }
    32 * word(text, 4) + 8 * word(text, 0)
}
