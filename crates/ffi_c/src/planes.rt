// A whole chroma plane, for C: linear, guided or triangular. A siting or range that stands for none is 255, before all else, exported.
ghost use Rattle.std.specs.Prelude.{◌≡◌};
ghost use Rattle.linear.specs.Linear.{LinearGiven};
ghost use Rattle.upsample.specs.Triangular.{TriangularGiven};
ghost use Rattle.guided_plane.specs.Plane.{GuidedGiven};
ghost use Rattle.ffi.specs.Types.{as_layout, strange_layout};
ghost use Rattle.ffi.specs.Calls.{Numbered};
ghost use Rattle.image.specs.Samples.{plane_of};

use ffi::ChromaLayout;

// `linear_plane`: one chroma plane by linear interpolation.
#[unsafe(no_mangle)]
pub extern "C" fn chroma_linear_plane(
    layout: ChromaLayout,
    plane: &[u8],
    stride: usize,
    s: &mut [f32],
    out: &mut [u16],
) -> u32
    ensures { Numbered (strange_layout layout)
        ((s.new ≡ s.old) × (out.new ≡ out.old))
        (λ a. LinearGiven (as_layout layout) (plane_of plane.now stride)
        s.old out.old
        a s.new out.new)
        result }
{
    ffi::chroma_linear_plane(layout, plane, stride, s, out)
}

// `guided_plane`: one chroma plane guided by luma.
#[unsafe(no_mangle)]
pub extern "C" fn chroma_guided_plane(
    layout: ChromaLayout,
    y: &[u8],
    y_stride: usize,
    plane: &[u8],
    stride: usize,
    s: &mut [f32],
    out: &mut [u16],
) -> u32
    ensures { Numbered (strange_layout layout)
        ((s.new ≡ s.old) × (out.new ≡ out.old))
        (λ a. GuidedGiven (as_layout layout)
        (plane_of y.now y_stride) (plane_of plane.now stride)
        s.old out.old
        a s.new out.new)
        result }
{
    ffi::chroma_guided_plane(layout, y, y_stride, plane, stride, s, out)
}

// `triangular_plane`: one chroma plane by the triangular filter on whole numbers.
#[unsafe(no_mangle)]
pub extern "C" fn chroma_triangular_plane(
    layout: ChromaLayout,
    plane: &[u8],
    stride: usize,
    out: &mut [u16],
) -> u32
    ensures { Numbered (strange_layout layout)
        (out.new ≡ out.old)
        (λ a. TriangularGiven (as_layout layout) (plane_of plane.now stride)
        out.old a out.new)
        result }
{
    ffi::chroma_triangular_plane(layout, plane, stride, out)
}
