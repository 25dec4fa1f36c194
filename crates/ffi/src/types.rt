// What crosses the boundary to C, and its translation: structs with C's layout, whose numbers stand for the Rattle calls' bools and
// enums.
ghost use Rattle.std.specs.Prelude.{◌≡◌};
ghost use Rattle.image.specs.Picture.{planes_seen};
ghost use Rattle.ffi.specs.Types.{answer_number, as_axis, as_range, chroma_range, as_layout, strange_layout, as_planes};
ghost use Rattle.ffi.specs.Types.{as_phase, chroma_phase, as_reader, chroma_reader, strange_phases, strange_reader};

use guided::{Geometry, Reader};
use image::{Layout, Plane, Planes, Range};
use laws::{Axis, Refusal, Siting};
use taps::Phase;

// A picture's numbers, as `Layout` has them: rh pixels to num_across cells, and rv to num_down. A siting is 0 for centred and 1 for co-sited,
// the range 0 for full and 1 for studio; another number stands for none.
#[repr(C)]
#[derive(Clone, Copy)]
pub struct ChromaLayout {
    pub w: usize,
    pub h: usize,
    pub rh: usize,
    pub rv: usize,
    pub cw: usize,
    pub ch: usize,
    pub sample_bytes: usize,
    pub maxval: u32,
    pub siting_across: u32,
    pub siting_down: u32,
    pub num_across: usize,
    pub num_down: usize,
    pub range: u32,
}

// How many bytes apart the rows of each plane begin.
#[repr(C)]
#[derive(Clone, Copy)]
pub struct ChromaStrides {
    pub y: usize,
    pub cb: usize,
    pub cr: usize,
}

// `left` is 1 for true and 0 for false; another number stands for none.
#[repr(C)]
#[derive(Clone, Copy)]
pub struct ChromaPhase {
    pub left: u32,
    pub f: f32,
}

// A reader's state, its geometry spread out: C passes it from call to call and needn't look at it.
#[repr(C)]
#[derive(Clone, Copy)]
pub struct ChromaReader {
    pub w: usize,
    pub h: usize,
    pub rh: usize,
    pub rv: usize,
    pub cw: usize,
    pub ch: usize,
    pub phases: [ChromaPhase; 4],
    pub sample_bytes: usize,
    pub maxval: u32,
    pub range: u32,
    pub place: usize,
    pub h_next: usize,
    pub f_next: usize,
}

// What open, seek and row answer: the state afterwards, and 0 as `refusal` where the call was accepted.
#[repr(C)]
#[derive(Clone, Copy)]
pub struct ChromaReply {
    pub refusal: u32,
    pub reader: ChromaReader,
}

// Three bytes of colour, 0 where the call was refused.
#[repr(C)]
#[derive(Clone, Copy)]
pub struct ChromaPixel {
    pub refusal: u32,
    pub r: u8,
    pub g: u8,
    pub b: u8,
}

// How many bytes were written, 0 where the call was refused.
#[repr(C)]
#[derive(Clone, Copy)]
pub struct ChromaWritten {
    pub refusal: u32,
    pub len: usize,
}

// The axis that C's siting and numerator stand for. Another siting than 0 and 1 was answered before.
#[tactic(auto, unfolding(crate::specs::Types::as_axis))]
fn to_axis(siting: u32, num: usize) -> Axis
    ensures { result ≡ as_axis siting num }
{
    if siting == 1 {
        return Axis {
            siting: Siting::CoSited,
            num,
        };
    }
    Axis {
        siting: Siting::Centred,
        num,
    }
}

// Inner: the range that C's number stands for. Another number than 0 and 1 was answered before.
#[tactic(auto, unfolding(crate::specs::Types::as_range))]
pub fn to_range(n: u32) -> Range
    ensures { result ≡ as_range n }
{
    if n == 1 {
        return Range::Studio;
    }
    Range::Full
}

// A range in C's form.
#[tactic(auto, unfolding(crate::specs::Types::chroma_range))]
fn from_range(range: Range) -> u32
    ensures { result ≡ chroma_range range }
{
    match range {
        Range::Full => 0,
        Range::Studio => 1,
    }
}

// Inner: whether a siting or the range is neither 0 nor 1, so that the layout stands for none.
#[tactic(auto, unfolding(crate::specs::Types::strange_layout))]
pub fn strange_layout(l: ChromaLayout) -> bool
    ensures { result ≡ strange_layout l }
{
    1 < l.siting_across || 1 < l.siting_down || 1 < l.range
}

// Inner: the layout that C's stands for.
#[tactic(auto, unfolding(crate::specs::Types::as_layout))]
pub fn to_layout(l: ChromaLayout) -> Layout
    ensures { result ≡ as_layout l }
{
    Layout {
        w: l.w,
        h: l.h,
        rh: l.rh,
        rv: l.rv,
        cw: l.cw,
        ch: l.ch,
        across: to_axis(l.siting_across, l.num_across),
        down: to_axis(l.siting_down, l.num_down),
        sample_bytes: l.sample_bytes,
        maxval: l.maxval,
        range: to_range(l.range),
    }
}

// Inner: the planes that C lends as three slices and their strides.
#[tactic(auto, unfolding(crate::specs::Types::as_planes))]
pub fn to_planes<'a>(y: &'a [u8], cb: &'a [u8], cr: &'a [u8], strides: ChromaStrides) -> Planes<'a>
    ensures { planes_seen result ≡ as_planes y.now cb.now cr.now strides }
{
    Planes {
        y: Plane {
            bytes: y,
            stride: strides.y,
        },
        cb: Plane {
            bytes: cb,
            stride: strides.cb,
        },
        cr: Plane {
            bytes: cr,
            stride: strides.cr,
        },
    }
}

// The phase that C's stands for. Only 1 is left: where a call looks at the state, another number than 0 and 1 was answered before.
#[tactic(auto, unfolding(crate::specs::Types::as_phase))]
fn to_phase(p: ChromaPhase) -> Phase
    ensures { result ≡ as_phase p }
{
    Phase {
        left: p.left == 1,
        f: p.f,
    }
}

// A phase in C's form.
#[tactic(auto, unfolding(crate::specs::Types::chroma_phase))]
fn from_phase(p: Phase) -> ChromaPhase
    ensures { result ≡ chroma_phase p }
{
    ChromaPhase {
        left: u32::from(p.left),
        f: p.f,
    }
}

// Whether a phase's `left` is neither 0 nor 1.
#[tactic(auto, unfolding(crate::specs::Types::strange_phases))]
fn strange_phases(reader: ChromaReader) -> bool
    ensures { result ≡ strange_phases reader }
{
    let p = reader.phases;
    1 < p[0].left || 1 < p[1].left || 1 < p[2].left || 1 < p[3].left
}

// Inner: whether a phase's `left` or the range is neither 0 nor 1, so that the state stands for none.
#[tactic(auto, unfolding(crate::specs::Types::strange_reader))]
pub fn strange_reader(reader: ChromaReader) -> bool
    ensures { result ≡ strange_reader reader }
{
    strange_phases(reader) || 1 < reader.range
}

// Inner: the state that C's stands for.
#[tactic(auto, unfolding(crate::specs::Types::as_reader))]
pub fn to_reader(r: ChromaReader) -> Reader
    ensures { result ≡ as_reader r }
{
    let p = r.phases;
    let phases = [
        to_phase(p[0]),
        to_phase(p[1]),
        to_phase(p[2]),
        to_phase(p[3]),
    ];
    let geometry = Geometry {
        w: r.w,
        h: r.h,
        rh: r.rh,
        rv: r.rv,
        cw: r.cw,
        ch: r.ch,
        phases,
        range: to_range(r.range),
    };
    Reader {
        geometry,
        sample_bytes: r.sample_bytes,
        maxval: r.maxval,
        place: r.place,
        h_next: r.h_next,
        f_next: r.f_next,
    }
}

// Inner: a state in C's form.
#[tactic(auto, unfolding(crate::specs::Types::chroma_reader))]
pub fn from_reader(r: Reader) -> ChromaReader
    ensures { result ≡ chroma_reader r }
{
    let g = r.geometry;
    let p = g.phases;
    let range = g.range;
    let phases = [
        from_phase(p[0]),
        from_phase(p[1]),
        from_phase(p[2]),
        from_phase(p[3]),
    ];
    ChromaReader {
        w: g.w,
        h: g.h,
        rh: g.rh,
        rv: g.rv,
        cw: g.cw,
        ch: g.ch,
        phases,
        sample_bytes: r.sample_bytes,
        maxval: r.maxval,
        range: from_range(range),
        place: r.place,
        h_next: r.h_next,
        f_next: r.f_next,
    }
}

// Inner: an answer's number, 0 for accepted.
pub fn number_of(answer: Result<(), Refusal>) -> u32
    ensures { result ≡ answer_number answer }
{
    match answer {
        Ok(()) => 0,
        Err(why) => u32::from(why.number()),
    }
}
