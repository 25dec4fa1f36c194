// Numbers limited to one byte, in a form that compiles to wide instructions.
ghost use Rattle.std.specs.Prelude.{◌≡◌, ◌≤◌, pos, ◌+ℤ◌};
ghost use Rattle.laws.specs.Differences.{limit};
ghost use Rattle.kernel_blocks.specs.Inner.Floating.{Luma};

// Inner: a number limited to 0..=255. It is signed and its upper limit comes first, so that sixteen of them compile to packs that limit.
// By `as`: the number was limited before, and TryFrom would have an error that can't be.
pub fn limit_byte(z: i32) -> u8
    ensures { result ≡ limit 255 z }
{
    if 255 < z {
        return 255;
    }
    if z < 0 {
        return 0;
    }
    z as u8
}

// Inner: luma less the grid's bits plus an offset that carries them, limited to 0..=255.
//
// No constant stands beside the limits: it would be moved into them, and they would not become packs. By `as`: the offset is
// 2^31 - 1 at most, and TryFrom would have an error that can't be.
pub fn limit_sum(y: i32, offset: u32) -> u8
    requires { Luma y × (offset ≤ 2147483647) }
    ensures { result ≡ limit 255 (y +ℤ pos offset) }
{
    limit_byte(y + offset as i32)
}
