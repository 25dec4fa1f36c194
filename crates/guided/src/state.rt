// The state that open, seek and row hand from call to call.
use crate::geometry::Geometry;

// Where a reader is: its picture's numbers, the row it is at, the next chroma row to sum across and the next to finish.
#[derive(Clone, Copy)]
pub struct Reader {
    pub geometry: Geometry,
    pub sample_bytes: usize,
    pub maxval: u32,
    pub place: usize,
    pub h_next: usize,
    pub f_next: usize,
}
