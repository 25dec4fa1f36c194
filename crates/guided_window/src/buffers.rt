// Where the row buffers of the window lie in scratch.
ghost use Rattle.std.specs.Prelude.{◌≡◌, ◌+◌, ◌^◌, ◌≤◌, ◌<◌};
ghost use Rattle.image.specs.Inner.Tests.{Sound};
ghost use Rattle.guided.specs.Scratch.{pitch, first_of, first_down};
ghost use Rattle.guided_window.specs.Inner.Buffers.{BufferGiven, SlotGiven, ResultGiven, RowAt, window_of, on};

use crate::neighbours::{next, prev};
use image::{Chroma, Layout};

// Where a row begins for chroma rows r - 1, r and r + 1, edges repeated: one of the row buffers, or a row of a plane.
#[derive(Clone, Copy)]
pub struct Window {
    pub up: usize,
    pub at: usize,
    pub down: usize,
}

impl Window {
    // Inner: the places n further on in these rows.
    pub fn on(self, n: usize) -> Window
        requires { (self.up + n < 2 ^ 64) × (self.at + n < 2 ^ 64) × (self.down + n < 2 ^ 64) }
        ensures { result ≡ on self n }
    {
        Window {
            up: self.up + n,
            at: self.at + n,
            down: self.down + n,
        }
    }

    // The buffers of a slot, which holds what is stored of one chroma row across: three of luma and two of each component.
    pub const SLOT: usize = 7;

    // Where the results begin: behind three slots, so that row r lies in slot r mod 3.
    pub const RESULTS: usize = 21;

    // The buffers of one chroma row's results: three of each component.
    pub const RESULT_SLOT: usize = 6;

    // The buffers of the window: three slots and the results of two chroma rows.
    pub const BUFFERS: usize = 33;

    // The detail's place, in rows as wide as the picture: the finished rows of Cb and Cr stand before it.
    pub const DETAIL: usize = 2;

    // How many rows as wide as the picture stand before the buffers: the two finished rows and the detail.
    pub const FRONT: usize = 3;
}

// What the window holds of a chroma row, a row buffer each: what is stored across, then what is made down.
#[derive(Clone, Copy)]
pub enum Buffer {
    // Luma's cells, the sums of three of them, and the sums of three of their squares.
    Luma,
    LumaSums,
    SquareSums,
    // A component's cells, and the sums of three of its products with luma.
    Cells(Chroma),
    ProductSums(Chroma),
    // A component's slopes, and the least and the greatest sample round each cell.
    Slopes(Chroma),
    Least(Chroma),
    Greatest(Chroma),
}

// How far apart row buffers begin. Rows of 256 cells and more are padded, so that they don't fall on the same lines of a cache: by 48
// values, or by what scratch leaves to each of the 35 buffers.
#[tactic(auto, unfolding(guided::specs::Scratch::pitch))]
fn pitch_of(layout: Layout) -> usize
    requires { Sound layout }
    ensures { result ≡ pitch layout }
{
    let cw = layout.cw;
    if cw < 256 {
        return cw;
    }
    cw + ((5 * layout.w - 3 * cw) / 35).min(48)
}

// The number of a component's first row buffer in a slot: luma's three come first, then Cb's two, then Cr's.
fn first_of(k: Chroma) -> usize
    ensures { (result ≡ first_of k) × (result ≤ 5) }
{
    match k {
        Chroma::Cb => 3,
        Chroma::Cr => 5,
    }
}

// The number of a component's first result: Cb's three come first.
fn result_of(k: Chroma) -> usize
    ensures { (result ≡ first_down k) × (result ≤ 3) }
{
    match k {
        Chroma::Cb => 0,
        Chroma::Cr => 3,
    }
}

// Inner: where row buffer n begins in scratch: behind the window's stand two more, for the picture row at hand.
#[tactic(auto, using(crate::proofs::Windows::buffer_room), unfolding(guided::specs::Scratch::buffer_at, image::specs::Scratch::scratch_need))]
pub fn buffer_at(layout: Layout, n: usize) -> usize
    requires { Sound layout × (n < 35) }
    ensures { BufferGiven layout n result }
{
    Window::FRONT * layout.w + n * pitch_of(layout)
}

// Where buffer n of chroma row r begins in scratch: the row lies in slot r mod 3.
#[tactic(auto, unfolding(guided::specs::Scratch::slot_at))]
fn slot_at(layout: Layout, n: usize, r: usize) -> usize
    requires { Sound layout × (n < 7) }
    ensures { SlotGiven layout n r result }
{
    buffer_at(layout, r % 3 * Window::SLOT + n)
}

// Where result n of chroma row r begins in scratch: a picture row reads two chroma rows' results, row r's in slot r mod 2.
#[tactic(auto, unfolding(guided::specs::Scratch::result_at))]
fn result_at(layout: Layout, n: usize, r: usize) -> usize
    requires { Sound layout × (n < 6) }
    ensures { ResultGiven layout n r result }
{
    buffer_at(layout, Window::RESULTS + (r % 2 * Window::RESULT_SLOT + n))
}

// Inner: where a buffer of chroma row r begins in scratch. Callers name the buffer by a constant, and it is made part of them, so that no case is
// asked for: in a picture of a column or two these places are much of a row's time.
#[inline(always)]
pub fn row_at(layout: Layout, buffer: Buffer, r: usize) -> usize
    requires { Sound layout }
    ensures { RowAt layout buffer r result }
{
    match buffer {
        Buffer::Luma => slot_at(layout, 0, r),
        Buffer::LumaSums => slot_at(layout, 1, r),
        Buffer::SquareSums => slot_at(layout, 2, r),
        Buffer::Cells(k) => slot_at(layout, first_of(k), r),
        Buffer::ProductSums(k) => slot_at(layout, first_of(k) + 1, r),
        Buffer::Slopes(k) => result_at(layout, result_of(k), r),
        Buffer::Least(k) => result_at(layout, result_of(k) + 1, r),
        Buffer::Greatest(k) => result_at(layout, result_of(k) + 2, r),
    }
}

// Inner: where a buffer begins for chroma row j and the rows above and below it, edges repeated.
#[tactic(auto, unfolding(crate::specs::Inner::Buffers::window_of))]
pub fn window_at(layout: Layout, buffer: Buffer, j: usize) -> Window
    requires { Sound layout × (j < layout.ch) }
    ensures { result ≡ window_of layout buffer j }
{
    Window {
        up: row_at(layout, buffer, prev(j)),
        at: row_at(layout, buffer, j),
        down: row_at(layout, buffer, next(j, layout.ch)),
    }
}
