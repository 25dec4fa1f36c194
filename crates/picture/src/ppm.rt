// A PPM written to the front of `out`: its header, then the pixels, three bytes each.
ghost use Rattle.std.specs.Prelude.{Ok, ◌≡◌, false, ◌*◌, ◌≤◌, length, get_or};
ghost use Rattle.laws.specs.Lists.{put};
ghost use Rattle.image.specs.Limits.{exceeds};
ghost use Rattle.image.specs.Scratch.{scratch_need};
ghost use Rattle.fill.specs.Fill.{fill_colour, pixel_rows};
ghost use Rattle.netpbm.specs.Inner.Taken.{Taken};
ghost use Rattle.netpbm.specs.Lines.{ppm_header};
ghost use Rattle.netpbm.specs.Texts.{line_of};
ghost use Rattle.picture.specs.Picture.{ppm_length, ppm_over, scratch_after};
ghost use Rattle.picture.specs.Inner.Planes.{planes_from, picture_from};
ghost use Rattle.image.specs.Picture.{planes_seen};

use fill::ChromaUpsampling;
use image::{Plane, Planes};
use kernels::YcbcrKernel;
use laws::Refusal;
use netpbm::{Line, Reading};

// Copies the bytes of a line to the front of `out`.
fn put_line(line: Line, out: &mut [u8])
    requires { (line.len ≤ 16) × (line.len ≤ length out.old) }
    ensures { out.new ≡ put out.old 0 line.len (λ i. get_or line.bytes i 0) }
{
    out[..line.len].copy_from_slice(&line.bytes[..line.len]);
}

// The three planes of a picture that was read, each from where its rows begin to the end of the bytes, one row right behind another.
#[tactic(auto, using(crate::proofs::Readings::strides_most))]
pub(crate) fn planes_from<'a>(bytes: &'a [u8], reading: Reading) -> Planes<'a>
    requires { Taken bytes.now reading }
    ensures { planes_seen result ≡ planes_from bytes.now reading }
{
    let layout = reading.layout;
    Planes {
        y: Plane {
            bytes: &bytes[reading.y..],
            stride: layout.w * layout.sample_bytes,
        },
        cb: Plane {
            bytes: &bytes[reading.cb..],
            stride: layout.cw * layout.sample_bytes,
        },
        cr: Plane {
            bytes: &bytes[reading.cr..],
            stride: layout.cw * layout.sample_bytes,
        },
    }
}

// Writes the pixels of the picture whose planes these are, from the first byte of `out` on. `fill` is lent them three times, each time from
// where a plane's rows begin. It accepts them: planes of an input that was read, with no sample above maxval and scratch and `out` of these
// lengths, leave it nothing to refuse.
#[tactic(auto, using(crate::proofs::Readings::fill_takes), unfolding(crate::specs::Picture::scratch_after, fill::specs::Fill::fill_scratch, image::specs::Picture::picture_of))]
fn put_pixels(planes: &[u8], reading: Reading, s: &mut [f32], out: &mut [u8]) -> Result<(), Refusal>
    requires taken { Taken planes.now reading }
    requires none_above { exceeds (picture_from planes.now reading) ≡ false }
    requires scratch_long { scratch_need reading.layout ≤ length s.old }
    requires out_long { reading.layout.w * reading.layout.h * 3 ≤ length out.old }
    ensures accepts { result ≡ Ok tt }
    ensures out_after { out.new ≡ pixel_rows
        reading.layout.w 3
        (fill_colour ChromaUpsampling.LumaGuided YcbcrKernel.Exact (picture_from planes.now reading))
        0 reading.layout.h out.old }
    ensures s_after { s.new ≡ scratch_after (picture_from planes.now reading) s.old }
{
    fill::fill(
        reading.layout,
        planes_from(planes, reading),
        ChromaUpsampling::LumaGuided,
        YcbcrKernel::Exact,
        3,
        s,
        out,
    )
}

// Writes the header, and behind it the pixels of the picture whose planes these are.
#[tactic(auto, using(crate::proofs::Fronts::ppm_room, laws::proofs::Lists::length_put, crate::proofs::Fronts::read_ppm_is))]
pub(crate) fn put_ppm(
    planes: &[u8],
    reading: Reading,
    header: Line,
    s: &mut [f32],
    out: &mut [u8],
) -> Result<(), Refusal>
    requires taken { Taken planes.now reading }
    requires none_above { exceeds (picture_from planes.now reading) ≡ false }
    requires header_value { header ≡ line_of (ppm_header reading.layout.w reading.layout.h) }
    requires scratch_long { scratch_need reading.layout ≤ length s.old }
    requires out_long { ppm_length reading.layout ≤ length out.old }
    ensures accepts { result ≡ Ok tt }
    ensures out_after { out.new ≡ ppm_over (picture_from planes.now reading) out.old }
    ensures s_after { s.new ≡ scratch_after (picture_from planes.now reading) s.old }
{
    let at = header.len;
    put_line(header, out);
    put_pixels(planes, reading, s, &mut out[at..])
}
