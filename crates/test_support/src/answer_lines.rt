// The line that a test program writes for a call: its answer as a number, and the sum of what it left.
use laws::Refusal;
use std::io;
use std::io::Print;

// Inner: an answer as a line gives it: 0 where the call was accepted, and the refusal's number otherwise.
pub fn number(answer: Result<(), Refusal>) -> usize {
    match answer {
        Ok(()) => 0,
        Err(why) => usize::from(why.number()),
    }
}

// Inner: writes what a call answered and the sum of what it left, in eight hex digits. rt compares the line with the stored one.
pub fn write_line(rt: &impl Print, answer: usize, sum: u32) -> io::Result<()> {
    println!(rt; "{answer} {sum:08x}")
}
