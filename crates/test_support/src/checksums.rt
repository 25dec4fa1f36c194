// Sums over what a call left: of all the values in their order, modulo 2^32, so that no single one can change unseen.
use crate::floats::bits;

// Inner: a sum with one more value, modulo 2^32. The factor, a linear congruential generator's, is odd, so that another value, here or
// earlier, gives another sum.
pub fn added(sum: u32, value: u32) -> u32 {
    sum.wrapping_mul(1_103_515_245).wrapping_add(value)
}

// Inner: a sum with the values of a slice of bytes added one after another.
pub fn sum_bytes(sum: u32, out: &[u8]) -> u32 {
    out.iter().fold(sum, |sum, x| added(sum, u32::from(*x)))
}

// Inner: a sum with a slice of 16-bit values added one after another.
pub fn sum_values(sum: u32, out: &[u16]) -> u32 {
    out.iter().fold(sum, |sum, x| added(sum, u32::from(*x)))
}

// Inner: a sum with the bits of a slice's floats added one after another, from index `from` on.
pub fn sum_floats(sum: u32, out: &[f32], from: usize) -> u32 {
    out.iter()
        .skip(from)
        .fold(sum, |sum, x| added(sum, bits(*x)))
}

// Inner: the lower 32 bits of a number.
pub fn low(n: usize) -> u32 {
    (n % 4_294_967_296) as u32
}

// Inner: a sum with a slice of 64-bit numbers added one after another, the upper half of each first.
pub fn sum_numbers(sum: u32, n: &[usize]) -> u32 {
    n.iter()
        .fold(sum, |sum, x| added(added(sum, low(*x >> 32)), low(*x)))
}

// Inner: sums of scratch: of all of it, and of what is behind the floats that a call may touch where it is accepted.
#[derive(Clone, Copy)]
pub struct ScratchSums {
    all: u32,
    spared: u32,
}

// Inner: the sums of scratch whose first `need` floats an accepted call may touch.
pub fn scratch_sums(s: &[f32], need: usize) -> ScratchSums {
    ScratchSums {
        all: sum_floats(0, s, 0),
        spared: sum_floats(0, s, need),
    }
}

// Inner: 1 where a call with this answer changed scratch that it may not touch, and else 0. A refused call may touch none.
pub fn scratch_fault(before: ScratchSums, after: ScratchSums, answer: usize) -> u32 {
    let kept = if answer == 0 {
        before.spared == after.spared
    } else {
        before.all == after.all
    };
    u32::from(!kept)
}
