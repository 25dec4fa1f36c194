// Mixes of two bytes, and of two rows of bytes, by a weight of sixteenths.
ghost use Rattle.std.specs.Prelude.{◌≡◌, ◌≤◌, ◌<◌, length};
ghost use Rattle.laws.specs.Lists.{put};
ghost use Rattle.colorimetry.specs.Mixes.{mix_of};
ghost use Rattle.colorimetry.specs.Inner.Blending.{mixed_at};

// Inner: `first` at weight 0, `second` at weight 16, and between them rounded, halves up. In sixteen bits, so that a row's products compile
// to packed ones. By `as`: the weight is 16 at most and the mix 255, and TryFrom would have an error that can't be.
#[tactic(auto, unfolding(crate::specs::Mixes::mix_of))]
pub fn mix(weight: usize, first: u8, second: u8) -> u8
    requires { weight ≤ 16 }
    ensures { result ≡ mix_of weight first second }
{
    let k = weight as u16;
    (((16 - k) * u16::from(first) + k * u16::from(second) + 8) / 16) as u8
}

// Inner: mixes the first n bytes of out, each with the byte of `second` at its place.
pub fn mix_bytes(weight: usize, second: &[u8], n: usize, out: &mut [u8])
    requires { (weight ≤ 16) × (n ≤ length second.now) × (n ≤ length out.old) }
    ensures { out.new ≡ put out.old 0 n (mixed_at weight out.old second.now) }
{
    // By places, since a proof knows what stands at a place, but of an `iter_mut` and `zip` only which items were given out.
    for i in 0..n {
        out[i] = mix(weight, out[i], second[i]);
    }
}
