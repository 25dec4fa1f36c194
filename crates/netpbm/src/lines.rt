// The lines that the program writes: a PPM's header, and the line of a refusal. Both are made in an array of their greatest length,
// since nothing here allocates.
ghost use Rattle.std.specs.Prelude.{◌≡◌, ◌+◌, ◌≤◌, ◌<◌, [], length};
ghost use Rattle.netpbm.specs.Lines.{digits_of, ppm_header, refusal_line};
ghost use Rattle.netpbm.specs.Texts.{line_of};
ghost use Rattle.netpbm.specs.Inner.Texts.{pushed, Put};

// A line to write: its bytes are the first `len` of `bytes`, and the others are 0, so that a text is held in one way only. An array with a
// length beside it, and not a `String`, since nothing here allocates.
#[derive(Clone, Copy)]
pub struct Line {
    pub bytes: [u8; Line::ROOM],
    pub len: usize,
}

impl Line {
    // How many bytes a line can hold. The longest header, of 128 columns and 8,192 rows, has 3 + 3 + 1 + 4 + 5 = 16; the longest line
    // of a refusal has 12.
    pub const ROOM: usize = 16;

    // The empty line.
    #[tactic(auto, unfolding(crate::specs::Texts::line_of))]
    fn new() -> Line
        ensures { (result ≡ line_of []) × (result.len ≡ 0) }
    {
        Line {
            bytes: [0u8; Line::ROOM],
            len: 0,
        }
    }

    // The line with one byte more at its end.
    #[tactic(auto, unfolding(crate::specs::Inner::Texts::pushed))]
    fn push(mut self, b: u8) -> Line
        requires { self.len < 16 }
        ensures { result ≡ pushed self b }
    {
        let at = self.len;
        self.bytes[at] = b;
        self.len = at + 1;
        self
    }

    // The line with the bytes of a text at its end.
    fn put(self, text: &[u8]) -> Line
        requires { self.len + length text.now ≤ 16 }
        ensures { Put self text.now result }
    {
        let mut line = self;
        for b in text {
            line = line.push(*b);
        }
        line
    }

    // The line with the digit of a number below 10 at its end. Its length is promised beside it, so that `put_number` can count room.
    // By `as`: TryFrom would have an error that can't be.
    #[tactic(auto, unfolding(crate::specs::Inner::Texts::pushed))]
    fn push_digit(self, d: usize) -> Line
        requires { (self.len < 16) × (d < 10) }
        ensures { (result ≡ pushed self (48 + d)) × (result.len ≡ self.len + 1) }
    {
        self.push(b'0' + d as u8)
    }

    // The line with a number's digits at its end, with no zeros in front. Sides and refusals have four digits at most, each written out, since
    // a promise names every byte of a line, and `write!` promises none.
    fn put_number(self, n: usize) -> Line
        requires n_bound { n < 10000 }
        requires n_bound_2 { self.len + length (digits_of n) ≤ 16 }
        ensures { Put self (digits_of n) result }
    {
        if n < 10 {
            return self.push_digit(n);
        }
        if n < 100 {
            return self.push_digit(n / 10).push_digit(n % 10);
        }
        if n < 1_000 {
            return self
                .push_digit(n / 100)
                .push_digit(n / 10 % 10)
                .push_digit(n % 10);
        }
        let front = self.push_digit(n / 1_000).push_digit(n / 100 % 10);
        front.push_digit(n / 10 % 10).push_digit(n % 10)
    }
}

// Inner: the header that stands before the pixels of a PPM. `read` accepts no picture past these limits, so that it fits a line.
pub fn ppm_header(w: usize, h: usize) -> Line
    requires { (w ≤ 128) × (h ≤ 8192) }
    ensures { result ≡ line_of (ppm_header w h) }
{
    let magic = Line::new().put(b"P6\n");
    let sides = magic.put_number(w).put(b" ").put_number(h);
    sides.put(b"\n255\n")
}

// Inner: the line that is written in place of a picture when the answer is refusal n.
pub fn refusal_line(n: u8) -> Line
    ensures { result ≡ line_of (refusal_line n) }
{
    Line::new()
        .put(b"refused ")
        .put_number(usize::from(n))
        .put(b"\n")
}
