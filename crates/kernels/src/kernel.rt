// The name by which a caller of fill picks a kernel: the original's enum.

// Which of document 01's kernels makes the colour. FixedPoint16 is for maxval 255 alone: fill refuses it at another (4).
#[derive(Clone, Copy, PartialEq, Eq, Debug)]
pub enum YcbcrKernel {
    Exact,
    FixedPoint16,
}
