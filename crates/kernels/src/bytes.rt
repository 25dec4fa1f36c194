// Three bytes of colour, and the limit to 0..=255 that ends every channel.
ghost use Rattle.std.specs.Prelude.{◌≡◌, ◌-◌, ◌/◌, ◌<◌, min};

// The colour bytes of a pixel, as a kernel gives them.
#[derive(Clone, Copy, PartialEq, Eq, Debug)]
pub struct Rgb {
    pub r: u8,
    pub g: u8,
    pub b: u8,
}

// Inner: v less its bias, limited to 0..=255. A sum that may lie below 0 carries a bias, so that numbers without a sign hold it. By `as`: the
// number is limited before, and TryFrom would have an error that can't be.
pub fn limit8(v: u32, bias: u32) -> u8
    ensures { result ≡ min (v - bias) 255 }
{
    v.saturating_sub(bias).min(255) as u8
}

// Inner: the floor of (p - n) / q, limited to 0..=255. What is subtracted comes apart, since the difference may lie below 0, and is then not
// divided: a division costs as much as all else of a channel. By `as`, likewise.
pub fn limit_quot(p: u64, n: u64, q: u64) -> u8
    requires { 0 < q }
    ensures { result ≡ min ((p - n) / q) 255 }
{
    if p <= n {
        return 0;
    }
    ((p - n) / q).min(255) as u8
}
