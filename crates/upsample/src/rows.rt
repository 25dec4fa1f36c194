// The two rows of cells that a row of output lies between.
ghost use Rattle.std.specs.Prelude.{◌≡◌, ◌+◌};
ghost use Rattle.upsample.specs.Inner.Pairs.{RowsInside, cells};

// Inner: two rows of cells of a plane: the plane's bytes, and at which of them each row begins. The near row weighs three parts and the far
// one one.
#[derive(Clone, Copy)]
pub struct CellRows<'a> {
    pub bytes: &'a [u8],
    pub near: usize,
    pub far: usize,
}

impl CellRows<'_> {
    // Inner: cell i of the near row.
    pub fn near_cell(self, sample_bytes: usize, i: usize) -> u16
        requires { RowsInside sample_bytes (i + 1) self }
        ensures { result ≡ cells sample_bytes self.entry.bytes.now self.entry.near i }
    {
        image::sample(self.bytes, sample_bytes, self.near + i * sample_bytes)
    }

    // Inner: cell i of the far row.
    pub fn far_cell(self, sample_bytes: usize, i: usize) -> u16
        requires { RowsInside sample_bytes (i + 1) self }
        ensures { result ≡ cells sample_bytes self.entry.bytes.now self.entry.far i }
    {
        image::sample(self.bytes, sample_bytes, self.far + i * sample_bytes)
    }
}
