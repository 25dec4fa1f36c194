// Pixels stored into a slice, three or four bytes each; a fourth byte keeps what it held.
ghost use Rattle.std.specs.Prelude.{◌≡◌, ◌+◌, ◌*◌, ◌≤◌, length};
ghost use Rattle.kernel_blocks.specs.Stores.{pixel, pixels};
ghost use Rattle.kernel_blocks.specs.Inner.Stores.{block_pixel};
ghost use Rattle.kernels.specs.Inner.Kernels.{rgb};

// How many pixels a block has: document 01's block length, named with the thing that it belongs to.
#[derive(Clone, Copy)]
pub struct Block;

impl Block {
    pub const LEN: usize = 16;
}

// Inner: stores the colour bytes of the pixel that starts at `at`.
pub fn put_pixel(dst: &mut [u8], at: usize, r: u8, g: u8, b: u8)
    requires { at + 3 ≤ length dst.old }
    ensures { dst.new ≡ pixel dst.old at (rgb r g b) }
{
    dst[at] = r;
    dst[at + 1] = g;
    dst[at + 2] = b;
}

// Inner: stores the pixels of a block from `at` on, `size` bytes each. Called with the size as a constant, it compiles to wide stores.
pub fn put_block(dst: &mut [u8], at: usize, size: usize, rows: [[u8; Block::LEN]; 3])
    requires { (3 ≤ size) × (at + Block.LEN * size ≤ length dst.old) }
    ensures { dst.new ≡ pixels dst.old at size (block_pixel rows) Block.LEN }
{
    for i in 0..Block::LEN {
        put_pixel(dst, at + i * size, rows[0][i], rows[1][i], rows[2][i]);
    }
}
