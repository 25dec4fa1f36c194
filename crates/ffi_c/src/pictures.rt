// The picture program's call, for C, exported.
ghost use Rattle.picture.specs.Picture.{PictureGiven};
ghost use Rattle.ffi.specs.Calls.{Pictured};

use ffi::ChromaWritten;

// `picture`: three PGM images in, a PPM out.
#[unsafe(no_mangle)]
pub extern "C" fn chroma_picture(input: &[u8], s: &mut [f32], out: &mut [u8]) -> ChromaWritten
    ensures { Pictured (λ o. PictureGiven input.now s.old out.old o s.new out.new) result }
{
    ffi::chroma_picture(input, s, out)
}
