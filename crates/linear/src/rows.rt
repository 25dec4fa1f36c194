// A row that is lerped across in scratch, as the calls that make it hand it on. Those below it that make the outputs between cells take just the
// places where they read and write: they know neither the row's width nor its tap, and their contracts would only get longer by it.
use laws::Axis;

// w outputs at dst over the cw cells at src, of which the axis has `axis.num` to r outputs.
#[derive(Clone, Copy)]
pub struct Row {
    pub axis: Axis,
    pub r: usize,
    pub cw: usize,
    pub src: usize,
    pub dst: usize,
    pub w: usize,
}
