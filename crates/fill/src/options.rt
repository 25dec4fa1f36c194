// What a caller of fill chooses beside the kernel.

// How chroma is reconstructed: the original's type without `Replicate`, which document 01 leaves out.
#[derive(Clone, Copy, PartialEq, Eq, Debug)]
pub enum ChromaUpsampling {
    Linear,
    LumaGuided,
}
