// A cell of a row with the cells beside it.
ghost use Rattle.std.specs.Prelude.{◌≤◌};

// Inner: a cell and its neighbours across, of which none lies behind the right one. At an edge a neighbour is the cell itself.
#[derive(Clone, Copy)]
pub struct Neighbours {
    pub left: usize,
    pub at: usize,
    pub right: usize,
    ghost order: { (left ≤ right) × (at ≤ right) },
}
