// 'The picture program' of document 01 as one call on slices: three PGM images in, a PPM out, chroma guided by luma, colour exact.
//
// `picture` is public and promises `PictureGiven` of specs/Picture. netpbm's `read` says what the input holds, the module `turned` turns
// the bytes of samples that have two, `fill` gives the pixels, and the module `ppm` puts the header before them. `ycbcrtoppm` and ffi call
// it; `refusal_line` is what the program writes on refusal.
#![tactic(auto)]

ghost use Rattle.std.specs.Prelude.{Ok, ◌≡◌};
ghost use Rattle.image.specs.Limits.{exceeds};
ghost use Rattle.netpbm.specs.Inner.Reading.{reading_of};
ghost use Rattle.netpbm.specs.Inner.Taken.{Taken};
ghost use Rattle.picture.specs.Picture.{PictureGiven};
ghost use Rattle.picture.specs.Inner.Planes.{picture_from, PpmGiven};

mod ppm;
mod turned;

use crate::ppm::{planes_from, put_ppm};
use crate::turned::{empty, turn_planes};
use laws::Refusal;
use netpbm::Reading;
pub use netpbm::{Line, refusal_line};

// Refusal 17's test: whether a sample of the planes exceeds maxval.
fn planes_above(planes: &[u8], reading: Reading) -> bool
    requires { Taken planes.now reading }
    ensures { result ≡ exceeds (picture_from planes.now reading) }
{
    image::above_planes(reading.layout, planes_from(planes, reading))
}

// Writes the picture whose planes these are to the front of `out`, where no sample exceeds maxval, and scratch and `out` are long enough.
// Otherwise it is answered by 17, 9 or 10, and nothing is written.
#[tactic(auto, using(crate::proofs::Readings::above_given, crate::proofs::Readings::scratch_given, crate::proofs::Readings::out_given, crate::proofs::Readings::written_given, crate::proofs::Readings::sides_most, crate::proofs::Readings::pixels_most, crate::proofs::Fronts::ppm_length_is, crate::proofs::Fronts::ppm_most))]
fn written(planes: &[u8], reading: Reading, s: &mut [f32], out: &mut [u8]) -> Result<usize, Refusal>
    requires { Taken planes.now reading }
    ensures { PpmGiven
        (picture_from planes.now reading) s.old out.old
        result s.new out.new }
{
    let layout = reading.layout;
    if planes_above(planes, reading) {
        return Err(Refusal::AboveMaxval);
    }
    if image::short_scratch(layout, s.len()) {
        return Err(Refusal::ShortScratch);
    }
    let header = netpbm::ppm_header(layout.w, layout.h);
    let len = header.len + layout.w * layout.h * 3;
    if out.len() < len {
        return Err(Refusal::ShortOutput);
    }
    put_ppm(planes, reading, header, s, out)?;
    Ok(len)
}

// Writes the picture that was read. Samples of one byte are read where they lie in the input, and wider ones from a copy that has their bytes
// turned.
fn convert(input: &[u8], reading: Reading, s: &mut [f32], out: &mut [u8]) -> Result<usize, Refusal>
    requires { reading_of input.now ≡ Ok reading }
    ensures { PictureGiven
        input.now s.old out.old
        result s.new out.new }
{
    if reading.layout.sample_bytes == 1 {
        return written(input, reading, s, out);
    }
    let mut planes = empty();
    turn_planes(input, reading, &mut planes);
    written(&planes, reading, s, out)
}

// Writes the picture that the input holds as a PPM to the front of `out`. It is answered by 14, 15, 2 and 5 as document 01 has the program
// meet them, then by 17, 9 and 10; on refusal nothing is changed. What stands in scratch afterwards is what `fill` leaves there.
pub fn picture(input: &[u8], s: &mut [f32], out: &mut [u8]) -> Result<usize, Refusal>
    ensures { PictureGiven
        input.now s.old out.old
        result s.new out.new }
{
    let reading = netpbm::read(input)?;
    convert(input, reading, s, out)
}
