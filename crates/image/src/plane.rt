// How the planes of a picture are lent: the bytes of each, and how far apart its rows begin.
ghost use Rattle.std.specs.Prelude.{ℕ, ◌<◌, get_or};

// One plane. `stride` counts the bytes from the beginning of one row to that of the next; what is left between rows is padding. `fit` keeps for
// proofs what a slice's type says of its numbers.
#[derive(Clone, Copy)]
pub struct Plane<'a> {
    pub bytes: &'a [u8],
    pub stride: usize,
    ghost fit: { (i : ℕ) → get_or bytes.now i 0 < 256 },
}

// The three planes of a picture.
#[derive(Clone, Copy)]
pub struct Planes<'a> {
    pub y: Plane<'a>,
    pub cb: Plane<'a>,
    pub cr: Plane<'a>,
}
