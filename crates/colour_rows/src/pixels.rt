// A row pixel by pixel, by the plain forms of the kernels: where maxval is not 255, so that the exact kernel has no block, and in rows
// narrower than a block.
ghost use Rattle.std.specs.Prelude.{◌≡◌, ◌≢◌, ℕ, ◌+◌, ◌*◌, ◌≤◌, length};
ghost use Rattle.laws.specs.Floats.{f32, ◌⊗◌};
ghost use Rattle.fround.specs.Inner.Rounding.{Rounded};
ghost use Rattle.kernels.specs.Inner.Forms.{colour_of};
ghost use Rattle.colour_rows.specs.Colours.{colour_by, studio_by, colour_in};
ghost use Rattle.colour_rows.specs.Inner.Colours.{lent_row};
ghost use Rattle.image.specs.Inner.Tests.{Shaped};
ghost use Rattle.kernels.specs.declared.kernel.YcbcrKernel.TheVariants.{Exact, FixedPoint16};

use crate::lent::LentRow;
use crate::samples::{chroma_256ths, luma_at, whole_chroma};
use image::{Layout, Range};
use kernels::{Rgb, YcbcrKernel};

// A pixel by the exact kernel at maxval 255.
fn exact_pixel(y: u16, cb: f32, cr: f32) -> Rgb
    ensures { colour_of result ≡ colour_by Exact 255 y cb cr }
{
    kernels::ycbcr_frac_to_rgb8_8bit(y, chroma_256ths(cb), chroma_256ths(cr))
}

// A pixel by the exact kernel in studio range.
fn studio_pixel(y: u16, cb: f32, cr: f32) -> Rgb
    ensures { colour_of result ≡ studio_by y cb cr }
{
    kernels::ycbcr_frac_to_rgb8_studio(y, chroma_256ths(cb), chroma_256ths(cr))
}

// Chroma in 256ths at a maxval other than 255, up to 16,776,960 = 65,535 * 256. That is past the limit of rounding by the grid, so that it
// goes by the float's bits.
fn scaled_chroma(v: f32) -> u32
    ensures { Rounded 16776960 (v ⊗ f32 256) result }
{
    fround::round_clamped_by_bits(v * 256.0, 16_776_960)
}

// A pixel by the exact kernel at a maxval other than 255.
fn scaled_pixel(y: u16, cb: f32, cr: f32, maxval: u32) -> Rgb
    requires { (1 ≤ maxval) × (maxval ≤ 65535) × (maxval ≢ 255) }
    ensures { colour_of result ≡ colour_by Exact maxval y cb cr }
{
    kernels::ycbcr_frac_to_rgb8_at(y, scaled_chroma(cb), scaled_chroma(cr), maxval)
}

// A pixel by the fixed kernel, for which chroma is first rounded to a whole number. It doesn't look at maxval, d in the contract.
fn fixed_pixel(y: u16, cb: f32, cr: f32) -> Rgb
    ensures { (d : ℕ) → colour_of result ≡ colour_by FixedPoint16 d y cb cr }
{
    kernels::ycbcr_to_rgb8_fixed(y, u16::from(whole_chroma(cb)), u16::from(whole_chroma(cr)))
}

// A pixel in full range, by either kernel at any maxval.
fn full_pixel(kernel: YcbcrKernel, y: u16, cb: f32, cr: f32, maxval: u32) -> Rgb
    requires { (1 ≤ maxval) × (maxval ≤ 65535) }
    ensures { colour_of result ≡ colour_by kernel maxval y cb cr }
{
    match kernel {
        YcbcrKernel::Exact => {
            if maxval == 255 {
                return exact_pixel(y, cb, cr);
            }
            scaled_pixel(y, cb, cr, maxval)
        }
        YcbcrKernel::FixedPoint16 => fixed_pixel(y, cb, cr),
    }
}

// A pixel in the layout's range.
fn ranged_pixel(kernel: YcbcrKernel, layout: Layout, y: u16, cb: f32, cr: f32) -> Rgb
    requires { Shaped layout }
    ensures { colour_of result ≡ colour_in layout.range kernel layout.maxval y cb cr }
{
    match layout.range {
        Range::Full => full_pixel(kernel, y, cb, cr, layout.maxval),
        Range::Studio => studio_pixel(y, cb, cr),
    }
}

// Inner: a row pixel by pixel, of `size` bytes each, to out from `at` on. One loop serves both ranges and both kernels: it asks for range,
// kernel and maxval at each pixel, which the loops over blocks do not.
pub fn plain_row(kernel: YcbcrKernel, lent: LentRow<'_>, size: usize, out: &mut [u8], at: usize)
    requires { (3 ≤ size) × (at + lent.layout.w * size ≤ length out.old) }
    ensures { out.new ≡ lent_row
        (colour_in lent.entry.layout.range kernel lent.entry.layout.maxval) lent.entry at size out.old }
{
    let w = lent.layout.w;
    for x in 0..w {
        let y = luma_at(lent, x);
        let p = ranged_pixel(kernel, lent.layout, y, lent.s[x], lent.s[w + x]);
        kernel_blocks::put_pixel(out, at + x * size, p.r, p.g, p.b);
    }
}
