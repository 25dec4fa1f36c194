// The kinds of bytes that a header's numbers are read by: whitespace, which stands before each of them, what begins and ends a comment,
// and decimal digits.
ghost use Rattle.std.specs.Prelude.{◌≡◌};
ghost use Rattle.netpbm.specs.Ascii.{is_blank, is_mark, ends_comment, is_digit};

// Inner: whether a byte is one of document 01's four whitespace bytes, a blank, a tab, a CR or an LF.
pub fn is_blank(b: u8) -> bool
    ensures { result ≡ is_blank b }
{
    matches!(b, b' ' | b'\t' | b'\r' | b'\n')
}

// Inner: whether a byte is `#`, which begins a comment wherever whitespace may stand.
pub fn is_mark(b: u8) -> bool
    ensures { result ≡ is_mark b }
{
    b == b'#'
}

// Inner: whether a byte is a CR or an LF, either of which is a comment's last byte.
pub fn ends_comment(last: u8) -> bool
    ensures { result ≡ ends_comment last }
{
    matches!(last, b'\r' | b'\n')
}

// Inner: whether a byte is one of the digits 0 to 9; a sign is none, so that a header has no negative number.
pub fn is_digit(b: u8) -> bool
    ensures { result ≡ is_digit b }
{
    b.is_ascii_digit()
}
