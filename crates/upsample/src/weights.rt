// The far row of an output row, and what one axis adds before the division.
ghost use Rattle.std.specs.Prelude.{◌≡◌, cond, ◌+◌, ◌/◌, ◌<◌, ◌≤◌};
ghost use Rattle.upsample.specs.Weights.{even};
ghost use Rattle.upsample.specs.Weights as weights;

// Inner: the far row of cells of output row y, of ch rows: the one before y / 2 at even y, the one after it at odd y, edges repeated.
pub fn far(y: usize, ch: usize) -> usize
    requires { y / 2 < ch }
    ensures { (result ≡ weights.far ch y) × (result < ch) }
{
    let near = y / 2;
    if y % 2 == 0 {
        return if near == 0 { 0 } else { near - 1 };
    }
    if near + 1 < ch { near + 1 } else { near }
}

// Inner: what one axis adds at output y before it divides by 4: 1 at even and 2 at odd positions.
pub fn one_axis_bias(y: usize) -> u8
    ensures { (result ≡ cond (even y) 1 2) × (result ≤ 2) }
{
    if y % 2 == 0 { 1 } else { 2 }
}
