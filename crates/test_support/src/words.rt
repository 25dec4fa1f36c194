// The numbers of a line, which is a byte for the kind and then words of four hex digits with a blank before each.
// Past a line's end every byte is 0 and every digit too.
ghost use Rattle.std.specs.Prelude.{◌<◌};

// Inner: the byte at a place of a line; 0 past its end.
pub fn byte(text: &[u8], at: usize) -> u8 {
    text.get(at).copied().unwrap_or(0)
}

// The value of a hex digit. Any other byte gives 0, so that a line with one has a wrong number in it and its answer shows that.
fn digit(b: u8) -> usize
    ensures { result < 16 }
{
    match b {
        b'0'..=b'9' => usize::from(b - b'0'),
        b'a'..=b'f' => usize::from(b - b'a') + 10,
        _ => 0,
    }
}

// The number of the two digits at a place.
fn two(text: &[u8], at: usize) -> usize
    requires { at < 65536 }
    ensures { result < 256 }
{
    digit(byte(text, at)) * 16 + digit(byte(text, at + 1))
}

// The number of the four digits at a place.
fn four(text: &[u8], at: usize) -> usize
    requires { at < 65534 }
    ensures { result < 65536 }
{
    two(text, at) * 256 + two(text, at + 2)
}

// Inner: the number of the eight digits at a place.
pub fn eight(text: &[u8], at: usize) -> usize
    requires { at < 65530 }
    ensures { result < 4294967296 }
{
    four(text, at) * 65_536 + four(text, at + 4)
}

// Inner: word k of a line, counted from 0. It stands behind the kind and k words of five bytes, blank and digits.
pub fn word(text: &[u8], k: usize) -> usize
    requires { k < 1000 }
    ensures { result < 65536 }
{
    four(text, 2 + 5 * k)
}

// Inner: of the bytes that the words of a line spell, two each, the one that stands i places behind `from`. Past the line's end it is 0: no
// line has a thousand of them.
pub fn spelled(text: &[u8], from: usize, i: usize) -> u8 {
    let at = from.min(1_000) + i.min(1_000);
    two(text, 2 + at / 2 * 5 + at % 2 * 2) as u8
}

// Inner: words k and k+1 of a line as one number, the upper half first.
pub fn long(text: &[u8], k: usize) -> usize
    requires { k < 999 }
    ensures { result < 4294967296 }
{
    word(text, k) * 65_536 + word(text, k + 1)
}

// Inner: word k of a line where it is a size, a stride or a row. ffff stands for the largest usize, 2^64 - 1, so that calls meet it too.
pub fn size(text: &[u8], k: usize) -> usize
    requires { k < 1000 }
{
    let n = word(text, k);
    if n == 65_535 { usize::MAX } else { n }
}

// Inner: words k to k+2 of a line as one number, the highest first. ffffffff in the lower two stands for the largest usize, 2^64 - 1.
pub fn value(text: &[u8], k: usize) -> usize
    requires { k < 998 }
{
    let n = long(text, k + 1);
    if n == 4_294_967_295 {
        return usize::MAX;
    }
    word(text, k) * 4_294_967_296 + n
}
