// How a test program reads its list: a line's array is filled from a reader.
ghost use Rattle.std.specs.Prelude.{◌≤◌, length, IfOk};

use std::io;
use std::io::Read;

// Reads until a line's array is full or the input ends, and gives how many bytes it put at the front of the array. Into an empty one it
// reads nothing.
fn read_full<R: Read>(input: &mut R, text: &mut [u8]) -> io::Result<usize>
    ensures { IfOk result (λ n. n ≤ length text.new) }
{
    let mut done = 0;
    while done < text.len() {
        let n = input.read(&mut text[done..])?;
        if n == 0 {
            break;
        }
        done += n;
    }
    Ok(done)
}

// Inner: as many turns as a loop over a list may take, which is more than any list has lines: every loop is to end, however much is read.
pub const LINES: usize = 65_536;

// Inner: the next line of a list whose lines have N bytes each, the newline too. The list ends where fewer are left.
pub fn read_line<const N: usize, R: Read>(input: &mut R) -> io::Result<Option<[u8; N]>> {
    let mut text = [0u8; N];
    let n = read_full(input, &mut text)?;
    Ok(if n < N { None } else { Some(text) })
}
