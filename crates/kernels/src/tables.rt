// The entries of the fixed kernel's tables, each document 01's formula, and the entries raised so that numbers without a sign hold them.
// The kernel reads them (fixed.rt; sixteen pixels at a time, kernel_blocks), and crates/offset_table prints them.
//
// The numbers stand once, in entries.rt. Each table is held to its rule by one computed check for the whole table, which proofs/TableRules
// carries to each entry.
//
// The tables are constants, as document 02 has them, and a constant is made anew where it is named. So an entry is read from a static of the
// same numbers, in place.
//
// The four functions that give an entry, and the four that raise it, are each one line. They stay four: a shared one would have to be told its
// table, its raise and its rule. A raised entry becomes a u32 by `as`: none lies below 0, and TryFrom would have an error that can't be.
ghost use Rattle.kernels.specs.Kernels.{fixed_red, fixed_blue, fixed_green_cb, fixed_green_cr};
ghost use Rattle.std.specs.Prelude.{◌≡◌, ◌-◌, ◌*◌, ◌<◌};
ghost use Rattle.kernels.specs.Inner.Forms.{raised_fixed};

use crate::entries::{BLUE, GREEN_CB, GREEN_CR, RED};

// The tables where they are read.
static RED_ENTRIES: [i32; 256] = RED;

static BLUE_ENTRIES: [i32; 256] = BLUE;

static GREEN_CB_ENTRIES: [i32; 256] = GREEN_CB;

static GREEN_CR_ENTRIES: [i32; 256] = GREEN_CR;

// What is added to the entries of a table so that none lies below 0.
#[derive(Clone, Copy)]
pub struct Raise;

impl Raise {
    // `Bias::RED`, as a number with a sign.
    pub const RED: i32 = 180;

    // `Bias::BLUE`, as a number with a sign.
    pub const BLUE: i32 = 227;

    // 44 * 65,536: Cb's part is at least -2,864,358.
    pub const GREEN_CB: i32 = 2_883_584;

    // 91 * 65,536: Cr's part is at least -5,911,086.
    pub const GREEN_CR: i32 = 5_963_776;
}

// Inner: red's offset by Cr, for whole chroma of one byte.
pub fn red_entry(c: u8) -> i32
    ensures { (c < 256) × (result ≡ fixed_red c) }
{
    RED_ENTRIES[usize::from(c)]
}

// Inner: blue's offset by Cb, for whole chroma of one byte.
pub fn blue_entry(c: u8) -> i32
    ensures { (c < 256) × (result ≡ fixed_blue c) }
{
    BLUE_ENTRIES[usize::from(c)]
}

// Inner: green's part by Cb, for whole chroma of one byte.
pub fn green_cb_entry(c: u8) -> i32
    ensures { (c < 256) × (result ≡ fixed_green_cb c) }
{
    GREEN_CB_ENTRIES[usize::from(c)]
}

// Inner: green's part by Cr, for whole chroma of one byte.
pub fn green_cr_entry(c: u8) -> i32
    ensures { (c < 256) × (result ≡ fixed_green_cr c) }
{
    GREEN_CR_ENTRIES[usize::from(c)]
}

// Inner: red's offset by Cr, raised by `Bias::RED`.
pub fn red_raised(c: u8) -> u32
    ensures { result ≡ raised_fixed 91881 180 c }
{
    (RED_ENTRIES[usize::from(c)] + Raise::RED) as u32
}

// Inner: blue's offset by Cb, raised by `Bias::BLUE`.
pub fn blue_raised(c: u8) -> u32
    ensures { result ≡ raised_fixed 116130 227 c }
{
    (BLUE_ENTRIES[usize::from(c)] + Raise::BLUE) as u32
}

// Inner: green's part by Cb, raised by `Raise::GREEN_CB`: 5,770,496 is that and 128 * 22,554.
pub fn green_cb_raised(c: u8) -> u32
    ensures { result ≡ 5770496 - 22554 * c }
{
    (GREEN_CB_ENTRIES[usize::from(c)] + Raise::GREEN_CB) as u32
}

// Inner: green's part by Cr, raised by `Raise::GREEN_CR`: 11,987,200 is that, 32,768 and 128 * 46,802.
pub fn green_cr_raised(c: u8) -> u32
    ensures { result ≡ 11987200 - 46802 * c }
{
    (GREEN_CR_ENTRIES[usize::from(c)] + Raise::GREEN_CR) as u32
}
