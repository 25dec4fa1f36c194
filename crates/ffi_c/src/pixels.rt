// The colour of one pixel, for C, exported.
ghost use Rattle.std.specs.Prelude.{◌≡◌};
ghost use Rattle.kernels.specs.Pixels.{exact_pixel, fixed_pixel};
ghost use Rattle.ffi.specs.Types.{as_range};
ghost use Rattle.ffi.specs.Calls.{chroma_pixel, chroma_pixel_in};

use ffi::ChromaPixel;

// `ycbcr_frac_to_rgb8`: chroma in 256ths, range full (0) or studio (1); 255 for any other range, before all else.
#[unsafe(no_mangle)]
pub extern "C" fn chroma_exact_pixel(
    y: u32,
    cb256: u32,
    cr256: u32,
    maxval: u32,
    range: u32,
) -> ChromaPixel
    ensures { result ≡ chroma_pixel_in range (exact_pixel (as_range range) maxval y cb256 cr256) }
{
    ffi::chroma_exact_pixel(y, cb256, cr256, maxval, range)
}

// `ycbcr_to_rgb8_fixed16`: whole chroma.
#[unsafe(no_mangle)]
pub extern "C" fn chroma_fixed_pixel(y: u32, cb: u32, cr: u32) -> ChromaPixel
    ensures { result ≡ chroma_pixel (fixed_pixel y cb cr) }
{
    ffi::chroma_fixed_pixel(y, cb, cr)
}
