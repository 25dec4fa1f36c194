// The picture program's call, for C.
ghost use Rattle.picture.specs.Picture.{PictureGiven};
ghost use Rattle.ffi.specs.Calls.{Pictured};

use crate::types::ChromaWritten;

// `picture`: three PGM images in, a PPM out.
pub fn chroma_picture(input: &[u8], s: &mut [f32], out: &mut [u8]) -> ChromaWritten
    ensures { Pictured (λ o. PictureGiven input.now s.old out.old o s.new out.new) result }
{
    match picture::picture(input, s, out) {
        Ok(n) => ChromaWritten { refusal: 0, len: n },
        Err(why) => ChromaWritten {
            refusal: u32::from(why.number()),
            len: 0,
        },
    }
}
