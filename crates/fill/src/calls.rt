// Fill to RGB: a whole picture's colour from its planes, chroma linear or guided by luma.
ghost use Rattle.fill.specs.Fill.{FillGiven};
ghost use Rattle.fill.specs.Tests.{fill_call};
ghost use Rattle.image.specs.Picture.{planes_seen};

use crate::answer::fill_answer;
use crate::options::ChromaUpsampling;
use crate::rows::fill_rows;
use image::{Layout, Planes};
use kernels::YcbcrKernel;
use laws::Refusal;

// The picture's w by h pixels into out, `size` bytes each, red, green and blue first; a fourth byte keeps what it held.
// Refusals 2, 3, 4, 18, 5, 16 (guided alone), 7, 17, 8, 9 and 10. Scratch afterwards is `fill_scratch` of specs/Fill.
#[tactic(auto, using(crate::proofs::Acceptance::ready))]
pub fn fill(
    layout: Layout,
    planes: Planes<'_>,
    upsampling: ChromaUpsampling,
    kernel: YcbcrKernel,
    size: usize,
    s: &mut [f32],
    out: &mut [u8],
) -> Result<(), Refusal>
    ensures { FillGiven
        (fill_call layout (planes_seen planes.entry)
        upsampling kernel size s.old out.old)
        result s.new out.new }
{
    fill_answer(layout, planes, upsampling, kernel, size, s, out)?;
    fill_rows(
        layout, planes, upsampling, kernel, size, 0, layout.h, s, out,
    );
    Ok(())
}
