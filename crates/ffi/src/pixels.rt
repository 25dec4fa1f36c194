// The colour of one pixel, for C.
ghost use Rattle.std.specs.Prelude.{◌≡◌};
ghost use Rattle.kernels.specs.Pixels.{exact_pixel, fixed_pixel};
ghost use Rattle.ffi.specs.Types.{as_range};
ghost use Rattle.ffi.specs.Calls.{no_colour, chroma_pixel, chroma_pixel_in};

use crate::types::{ChromaPixel, to_range};
use kernels::Rgb;
use laws::Refusal;

// No colour, with a number that says why.
fn no_colour(refusal: u32) -> ChromaPixel
    ensures { result ≡ no_colour refusal }
{
    ChromaPixel {
        refusal,
        r: 0,
        g: 0,
        b: 0,
    }
}

// A pixel's answer in C's form.
fn from_pixel(p: Result<Rgb, Refusal>) -> ChromaPixel
    ensures { result ≡ chroma_pixel p }
{
    match p {
        Ok(p) => ChromaPixel {
            refusal: 0,
            r: p.r,
            g: p.g,
            b: p.b,
        },
        Err(why) => no_colour(u32::from(why.number())),
    }
}

// `ycbcr_frac_to_rgb8`: chroma in 256ths, range full (0) or studio (1); 255 for any other range, before all else.
#[tactic(auto, unfolding(crate::specs::Calls::chroma_pixel_in))]
pub fn chroma_exact_pixel(y: u32, cb256: u32, cr256: u32, maxval: u32, range: u32) -> ChromaPixel
    ensures { result ≡ chroma_pixel_in range (exact_pixel (as_range range) maxval y cb256 cr256) }
{
    if 1 < range {
        return no_colour(255);
    }
    from_pixel(kernels::ycbcr_frac_to_rgb8(y, cb256, cr256, maxval, to_range(range)))
}

// `ycbcr_to_rgb8_fixed16`: whole chroma.
pub fn chroma_fixed_pixel(y: u32, cb: u32, cr: u32) -> ChromaPixel
    ensures { result ≡ chroma_pixel (fixed_pixel y cb cr) }
{
    from_pixel(kernels::ycbcr_to_rgb8_fixed16(y, cb, cr))
}
