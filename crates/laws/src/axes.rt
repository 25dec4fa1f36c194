// How one axis of a picture is sampled, across or down: beside its ratio, where a chroma sample sits among the outputs of its cell, and how
// many cells there are to as many outputs as the ratio says.

// In the middle of them, or over the first, where ITU-R BT.601 puts it across.
#[derive(Clone, Copy, PartialEq, Eq, Debug)]
pub enum Siting {
    Centred,
    CoSited,
}

// The axis has `num` cells to r outputs, where r is the layout's ratio: a numerator whose denominator is the ratio. A struct, since a layout
// hands on an axis whole and a later change can say more of it without touching those who make a layout.
#[derive(Clone, Copy, PartialEq, Eq, Debug)]
pub struct Axis {
    pub siting: Siting,
    pub num: usize,
}

impl Axis {
    // Centred and with numerator 1, as every axis is for the guided and the triangular calls.
    pub const PLAIN: Axis = Axis {
        siting: Siting::Centred,
        num: 1,
    };
}
