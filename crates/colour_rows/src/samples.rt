// The samples of a row, one by one and by sixteens: luma from its plane, chroma from scratch and rounded.
ghost use Rattle.std.specs.Prelude.{◌≡◌, ℕ, ◌+◌, ◌*◌, ◌≤◌, ◌<◌, length, get_or};
ghost use Rattle.std.specs.Float.{nan};
ghost use Rattle.laws.specs.Floats.{f32, ◌⊗◌};
ghost use Rattle.image.specs.Samples.{sample_of, sample_at, seen};
ghost use Rattle.fround.specs.Rounding.{round_clamped};
ghost use Rattle.fround.specs.Inner.Rounding.{Rounded};
ghost use Rattle.image.specs.Scratch.{cell_at};
ghost use Rattle.kernel_blocks.specs.Inner.Floating.{Centred};
ghost use Rattle.colour_rows.specs.Inner.Gathered.{Listed};

use crate::lent::LentRow;
use kernel_blocks::Block;

// Inner: luma of column x of a row.
#[tactic(auto, unfolding(image::specs::Samples::sample_at))]
pub fn luma_at(lent: LentRow<'_>, x: usize) -> u16
    requires { x < lent.layout.w }
    ensures { result ≡ sample_at lent.entry.layout.sample_bytes (seen lent.entry.plane) lent.entry.row x }
{
    image::row_sample(lent.plane, lent.layout.sample_bytes, lent.row, x)
}

// Inner: chroma in 256ths at maxval 255, limited to 65,536 = 256 * 256, since the kernel takes at most 32,768 to either side of 128 * 256.
pub fn chroma_256ths(v: f32) -> u32
    ensures { Rounded 65536 (v ⊗ f32 256) result }
{
    fround::round_clamped_by_grid(v * 256.0, 65_536)
}

// Inner: chroma rounded to a whole number in 0..=255, as the fixed kernel takes it.
pub fn whole_chroma(v: f32) -> u8
    ensures { result ≡ round_clamped 255 v }
{
    // By `as`: the number was limited before, and TryFrom would have an error that can't be.
    fround::round_clamped_by_grid(v, 255) as u8
}

// Inner: luma of the sixteen columns from x on.
pub fn luma_block(lent: LentRow<'_>, x: usize) -> [u16; Block::LEN]
    requires { x + Block.LEN ≤ lent.layout.w }
    ensures { Listed Block.LEN result (λ k. sample_at lent.entry.layout.sample_bytes (seen lent.entry.plane) lent.entry.row (x + k)) }
{
    image::row_block(lent.plane, lent.layout.sample_bytes, lent.row, x)
}

// Inner: chroma of the sixteen columns from x on of the finished row at src, in 256ths less 32,768 = 128 * 256, as floats for the exact
// kernel's block.
pub fn chroma_block(s: &[f32], src: usize, x: usize) -> [f32; Block::LEN]
    requires { src + (x + Block.LEN) ≤ length s.now }
    ensures { ((k : ℕ) → k < Block.LEN
        → Centred (get_or result k nan) (round_clamped 65536 (cell_at s.now src (x + k) ⊗ f32 256))) }
{
    fround::centred_256ths(lanes::load(s, src + x)).to_array()
}

// Inner: chroma of the sixteen columns from x on of the finished row at src, as whole numbers for the fixed kernel's block.
pub fn whole_chroma_block(s: &[f32], src: usize, x: usize) -> [u8; Block::LEN]
    requires { src + (x + Block.LEN) ≤ length s.now }
    ensures { Listed Block.LEN result (λ k. round_clamped 255 (cell_at s.now src (x + k))) }
{
    fround::rounded(lanes::load(s, src + x), 255)
        .cast::<u8>()
        .to_array()
}
