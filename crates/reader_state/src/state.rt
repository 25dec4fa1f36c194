// The reader's state: its counters, and the test behind refusal 1.
ghost use Rattle.std.specs.Prelude.{◌≡◌, ◌&&◌, ◌<◌, eqb};
ghost use Rattle.image.specs.Inner.Tests.{Sound};
ghost use Rattle.guided.specs.Calls.{reader_layout, reader_at, top_of, last_of, fresh_h, fresh_f, done_h, done_f, bad_counters, bad_state};

use crate::phases::bad_phases;
use guided::{Geometry, Reader};
use image::Layout;
use laws::Axis;

// Inner: the layout that a reader's picture was opened with, put together from its state. Open takes plain axes alone.
#[tactic(auto, unfolding(guided::specs::Calls::reader_layout))]
pub fn reader_layout(reader: Reader) -> Layout
    ensures { result ≡ reader_layout reader }
{
    let g = reader.geometry;
    let range = g.range;
    Layout {
        w: g.w,
        h: g.h,
        rh: g.rh,
        rv: g.rv,
        cw: g.cw,
        ch: g.ch,
        across: Axis::PLAIN,
        down: Axis::PLAIN,
        sample_bytes: reader.sample_bytes,
        maxval: reader.maxval,
        range,
    }
}

// Inner: the first chroma row that picture row y takes from.
#[tactic(auto, unfolding(guided::specs::Calls::top_of))]
pub fn top_of(layout: Layout, y: usize) -> usize
    requires sound { Sound layout }
    requires y_lt_h { y < layout.h }
    ensures { (result ≡ top_of layout y) × (result < layout.ch) }
{
    let t = taps::plain_tap(layout.rv, layout.ch, y);
    t.i0
}

// Inner: the last chroma row that picture row y takes from or is clamped by.
#[tactic(auto, unfolding(guided::specs::Calls::last_of))]
pub fn last_of(layout: Layout, y: usize) -> usize
    requires sound { Sound layout }
    requires y_lt_h { y < layout.h }
    ensures { (result ≡ last_of layout y) × (result < layout.ch) }
{
    let t = taps::plain_tap(layout.rv, layout.ch, y);
    t.i1.max(y / layout.rv)
}

// A reader's two counters: the next chroma row to sum across, and the next to finish.
#[derive(Clone, Copy, PartialEq, Eq, Debug)]
pub struct Counters {
    pub h_next: usize,
    pub f_next: usize,
}

// Inner: the counters that open and seek leave at row y: nothing is summed or finished yet.
pub fn fresh_counters(layout: Layout, y: usize) -> Counters
    requires sound { Sound layout }
    requires y_lt_h { y < layout.h }
    ensures { (result.h_next ≡ fresh_h layout y) × (result.f_next ≡ fresh_f layout y) }
{
    let top = top_of(layout, y);
    Counters {
        h_next: top.saturating_sub(1),
        f_next: top,
    }
}

// Inner: the counters that row leaves at row y.
pub fn done_counters(layout: Layout, y: usize) -> Counters
    requires sound { Sound layout }
    requires y_lt_h { y < layout.h }
    ensures { (result.h_next ≡ done_h layout y) × (result.f_next ≡ done_f layout y) }
{
    let last = last_of(layout, y);
    Counters {
        h_next: layout.ch.min(last + 2),
        f_next: last + 1,
    }
}

// Inner: a layout's reader at row y with these counters, which is the state that open, seek and row leave.
#[tactic(auto, unfolding(guided::specs::Calls::reader_at))]
pub fn reader_at(geometry: Geometry, layout: Layout, y: usize, c: Counters) -> Reader
    ensures { result ≡ reader_at geometry layout y c.h_next c.f_next }
{
    Reader {
        geometry,
        sample_bytes: layout.sample_bytes,
        maxval: layout.maxval,
        place: y,
        h_next: c.h_next,
        f_next: c.f_next,
    }
}

// Whether a reader's counters are these two.
fn counters_are(reader: Reader, c: Counters) -> bool
    ensures { result ≡ (eqb reader.h_next c.h_next && eqb reader.f_next c.f_next) }
{
    reader.h_next == c.h_next && reader.f_next == c.f_next
}

// Whether the counters are neither open's or seek's nor row's at the state's place.
#[tactic(auto, unfolding(guided::specs::Calls::bad_counters, guided::specs::Calls::reader_layout))]
fn bad_counters(reader: Reader) -> bool
    requires sound { Sound (reader_layout reader) }
    requires place_lt_h { reader.place < reader.geometry.h }
    ensures { result ≡ bad_counters reader }
{
    let layout = reader_layout(reader);
    let fresh = fresh_counters(layout, reader.place);
    let done = done_counters(layout, reader.place);
    !(counters_are(reader, fresh) || counters_are(reader, done))
}

// Inner: refusal 1's test: whether open, seek and row never leave this state.
#[tactic(auto, unfolding(guided::specs::Calls::bad_state))]
pub fn bad_state(reader: Reader) -> bool
    ensures { result ≡ bad_state reader }
{
    if reader_layout(reader).answer(false).is_err() {
        return true;
    }
    let g = reader.geometry;
    bad_phases(g) || g.h <= reader.place || bad_counters(reader)
}
