// The reader's calls for C: open, seek, row, and a row as RGB, exported.
ghost use Rattle.std.specs.Prelude.{◌≡◌};
ghost use Rattle.guided.specs.Calls.{open_call, seek_call, row_call, OpenGiven, SeekGiven, RowGiven};
ghost use Rattle.rgb_rows.specs.RgbRows.{side_of, rgb_row_call, RgbRowGiven};
ghost use Rattle.ffi.specs.Types.{as_planes, as_layout, as_reader, strange_layout, strange_reader};
ghost use Rattle.ffi.specs.Calls.{Checked};

use ffi::{ChromaLayout, ChromaReader, ChromaReply, ChromaStrides};

// `open`: a picture's reader at row 0. The state that it is handed may hold anything. A siting or range that stands for none is 255, before all else.
#[unsafe(no_mangle)]
pub extern "C" fn chroma_open(
    layout: ChromaLayout,
    y: &[u8],
    cb: &[u8],
    cr: &[u8],
    strides: ChromaStrides,
    s: &[f32],
    reader: ChromaReader,
) -> ChromaReply
    ensures { Checked (strange_layout layout) 255 reader Unit
        (OpenGiven (open_call (as_layout layout)
        (as_planes y.now cb.now cr.now strides)
        s.now (as_reader reader)))
        result }
{
    ffi::chroma_open(layout, y, cb, cr, strides, s, reader)
}

// `seek`: the reader at row y.
#[unsafe(no_mangle)]
pub extern "C" fn chroma_seek(reader: ChromaReader, y: usize) -> ChromaReply
    ensures { Checked (strange_reader reader) 1 reader Unit (SeekGiven (seek_call y (as_reader reader))) result }
{
    ffi::chroma_seek(reader, y)
}

// `row`: one row of Cb and of Cr.
#[unsafe(no_mangle)]
pub extern "C" fn chroma_row(
    reader: ChromaReader,
    y: &[u8],
    cb: &[u8],
    cr: &[u8],
    strides: ChromaStrides,
    row: usize,
    s: &mut [f32],
    out_cb: &mut [f32],
    out_cr: &mut [f32],
) -> ChromaReply
    ensures { Checked (strange_reader reader) 1 reader
        ((s.new ≡ s.old)
        × (out_cb.new ≡ out_cb.old)
        × (out_cr.new ≡ out_cr.old))
        (λ p. RowGiven
        (row_call row (as_planes y.now cb.now cr.now strides) (as_reader reader)
        s.old out_cb.old out_cr.old)
        p s.new out_cb.new out_cr.new)
        result }
{
    ffi::chroma_row(reader, y, cb, cr, strides, row, s, out_cb, out_cr)
}

// `rgb_row`: one row as RGB, guided and exact.
#[unsafe(no_mangle)]
pub extern "C" fn chroma_rgb_row(
    reader: ChromaReader,
    y: &[u8],
    cb: &[u8],
    cr: &[u8],
    strides: ChromaStrides,
    row: usize,
    s: &mut [f32],
    out: &mut [u8],
) -> ChromaReply
    ensures { Checked (strange_reader reader) 1 reader
        ((s.new ≡ s.old) × (out.new ≡ out.old))
        (λ p. RgbRowGiven
        (rgb_row_call row
        (side_of (as_reader reader) (as_planes y.now cb.now cr.now strides) s.old)
        out.old)
        p s.new out.new)
        result }
{
    ffi::chroma_rgb_row(reader, y, cb, cr, strides, row, s, out)
}
