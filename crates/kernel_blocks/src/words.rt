// Pixels of four bytes stored as words, so that a block's compile to a few wide stores; the fourth byte keeps what it held.
ghost use Rattle.std.specs.Prelude.{◌≡◌, ℕ, ◌+◌, ◌*◌, ◌/◌, ◌%◌, ◌<◌, ◌≤◌, length, get_or, set};
ghost use Rattle.kernel_blocks.specs.Stores.{pixel, pixels};
ghost use Rattle.kernel_blocks.specs.Inner.Stores.{block_pixel};
ghost use Rattle.kernel_blocks.specs.Inner.Words.{Word};
ghost use Rattle.kernels.specs.Inner.Kernels.{rgb};

use crate::stores::Block;
use std::array::from_fn;

// Four bytes as a word, the first the lowest.
fn word(a: u8, b: u8, c: u8, d: u8) -> u32
    ensures { Word result (rgb a b c) d }
{
    u32::from_le_bytes([a, b, c, d])
}

// The word at p with its three colour bytes cleared.
//
// `low` has their bits, 2^24 - 1: a number that the compiler knows would make it read the fourth bytes one by one.
fn fourth(dst: &[u8], p: usize, low: u32) -> u32
    requires { (low ≡ 16777215) × (p + 4 ≤ length dst.now) }
    ensures { (result ≡ 16777216 * get_or dst.now (p + 3) 0) × (result < 4294967296) }
{
    let held = word(dst[p], dst[p + 1], dst[p + 2], dst[p + 3]);
    held - (held & low)
}

// The words of a block's pixels, with the fourth bytes that dst holds.
fn words(dst: &[u8], at: usize, low: u32, rows: [[u8; Block::LEN]; 3]) -> [u32; Block::LEN]
    requires { (low ≡ 16777215) × (at + Block.LEN * 4 ≤ length dst.now) }
    ensures { ((k : ℕ) → k < Block.LEN
        → Word (get_or result k 0) (block_pixel rows k) (get_or dst.now (at + k * 4 + 3) 0)) }
{
    from_fn(|i| word(rows[0][i], rows[1][i], rows[2][i], 0) + fourth(dst, at + i * 4, low))
}

// Stores the four bytes of a word from p on, the lowest first.
fn put_word(dst: &mut [u8], p: usize, w: u32)
    requires { p + 4 ≤ length dst.old }
    ensures { dst.new ≡ set
        (pixel dst.old p (rgb (w % 256) (w / 256 % 256) (w / 65536 % 256)))
        (p + 3)
        (w / 16777216) }
{
    let bytes = w.to_le_bytes();
    dst[p..p + 4].copy_from_slice(&bytes);
}

// Inner: stores the pixels of a block from `at` on, four bytes each, by words; `low` is 2^24 - 1, as its caller computed it.
pub fn put_words(dst: &mut [u8], at: usize, low: u32, rows: [[u8; Block::LEN]; 3])
    requires { (low ≡ 16777215) × (at + Block.LEN * 4 ≤ length dst.old) }
    ensures { dst.new ≡ pixels dst.old at 4 (block_pixel rows) Block.LEN }
{
    let w = words(dst, at, low, rows);
    for i in 0..Block::LEN {
        put_word(dst, at + i * 4, w[i]);
    }
}
