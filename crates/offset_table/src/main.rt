// Prints the fixed kernel's four tables, a line for each whole Cb or Cr of one byte, as a sheet to pin up by the scanner.
//
// A line has the chroma c, red's offset where Cr is c, blue's offset where Cb is c, and green's parts before the shift where Cb and where
// Cr is c, the rounding 32,768 in the last. Green's offset is the floor of its two parts' sum over 65,536. The raises become u32 by `as`: they
// are constants above 0, and TryFrom would have an error that can't be.
#![tactic(auto)]

use kernels::Raise;
use std::io;
use std::io::Print;

// Writes a blank and an entry with its sign, from the entry raised by a bias.
fn print_entry(rt: &impl Print, raised: u32, bias: u32) -> io::Result<()> {
    print!(rt; " {}", i64::from(raised) - i64::from(bias))
}

// Writes green's two parts and the end of the line.
fn print_green(rt: &impl Print, c: u8) -> io::Result<()> {
    print_entry(rt, kernels::green_cb_raised(c), Raise::GREEN_CB as u32)?;
    print_entry(rt, kernels::green_cr_raised(c), Raise::GREEN_CR as u32)?;
    println!(rt)
}

// Writes the line of chroma c.
fn print_line(rt: &impl Print, c: u8) -> io::Result<()> {
    print!(rt; "{c}")?;
    print_entry(rt, kernels::red_raised(c), Raise::RED as u32)?;
    print_entry(rt, kernels::blue_raised(c), Raise::BLUE as u32)?;
    print_green(rt, c)
}

fn main(rt: HostRuntime) -> io::Result<()> {
    for c in 0..=255u8 {
        print_line(&rt, c)?;
    }
    Ok(())
}
