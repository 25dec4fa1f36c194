// The checks of fill, in the order of the table.
ghost use Rattle.std.specs.Prelude.{◌≡◌};
ghost use Rattle.laws.specs.Refusals.{first};
ghost use Rattle.fill.specs.Tests.{is_fixed, is_guided, fill_call, fill_tests};
ghost use Rattle.image.specs.Picture.{planes_seen};

use crate::options::ChromaUpsampling;
use image::{Layout, Planes};
use kernels::YcbcrKernel;
use laws::Refusal;

// Whether the kernel is the fixed one, which refusal 4 holds to maxval 255.
pub(crate) fn is_fixed(kernel: YcbcrKernel) -> bool
    ensures { result ≡ is_fixed kernel }
{
    matches!(kernel, YcbcrKernel::FixedPoint16)
}

// Whether chroma is guided by luma, which refusal 3 holds to numerator 1 and refusal 16 to centred axes.
fn is_guided(upsampling: ChromaUpsampling) -> bool
    ensures { result ≡ is_guided upsampling }
{
    matches!(upsampling, ChromaUpsampling::LumaGuided)
}

// Inner: the lowest refusal of `fill` that applies. It writes nothing.
#[tactic(auto, unfolding(laws::specs::Refusals::first, image::specs::Tests::tests_for, crate::specs::Tests::fill_tests))]
pub fn fill_answer(
    layout: Layout,
    planes: Planes<'_>,
    upsampling: ChromaUpsampling,
    kernel: YcbcrKernel,
    size: usize,
    s: &[f32],
    out: &[u8],
) -> Result<(), Refusal>
    ensures { result ≡ first (fill_tests
        (fill_call layout (planes_seen planes.entry)
        upsampling kernel size s.now out.now)) }
{
    let guided = is_guided(upsampling);
    layout.answer_for(guided, is_fixed(kernel))?;
    laws::first([
        (guided && layout.bad_siting(), Refusal::NotCentred),
        (image::bad_planes(layout, planes), Refusal::BadPlane),
    ])?;
    let short = laws::volume_passes(layout.w, layout.h, size, out.len());
    laws::first([
        (image::above_planes(layout, planes), Refusal::AboveMaxval),
        (laws::outside(3, 4, size), Refusal::BadPixelSize),
        (image::short_scratch(layout, s.len()), Refusal::ShortScratch),
        (short, Refusal::ShortOutput),
    ])
}
