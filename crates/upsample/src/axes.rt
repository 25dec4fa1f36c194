// The weighing of a near and a far cell, and what is added where vertical sums are weighed, as the original's src/jpeg/upsample.rs has it.
ghost use Rattle.std.specs.Prelude.{◌≡◌, ◌+◌, ◌*◌, ◌/◌, ◌≤◌};

// Inner: three parts of the near cell and one of the far, divided by 4. Cells are of 16 bits, so that the quotient fits 16 too, and it is
// cast by `as`: TryFrom would have an error that can't be.
pub fn one_axis(near: u16, far: u16, bias: u32) -> u16
    requires { bias ≤ 2 }
    ensures { result ≡ (3 * near + far + bias) / 4 }
{
    ((3 * u32::from(near) + u32::from(far) + bias) >> 2) as u16
}

// Inner: what is added to a weighed sum before it is divided by 16: at the left output of a cell, 2i, and at the right one, 2i + 1.
#[derive(Clone, Copy)]
pub struct Bias {
    pub left: u16,
    pub right: u16,
}

impl Bias {
    // Both axes: 8 and 7.
    pub const BOTH: Bias = Bias { left: 8, right: 7 };
    // One axis, across: four times 1 and 2, since its sums are its cells four times.
    pub const ACROSS: Bias = Bias { left: 4, right: 8 };
}
