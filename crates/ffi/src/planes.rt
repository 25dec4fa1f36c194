// A whole chroma plane, for C: linear, guided or triangular. A siting or range that stands for none is 255, before all else.
ghost use Rattle.std.specs.Prelude.{◌≡◌};
ghost use Rattle.linear.specs.Linear.{LinearGiven};
ghost use Rattle.upsample.specs.Triangular.{TriangularGiven};
ghost use Rattle.guided_plane.specs.Plane.{GuidedGiven};
ghost use Rattle.ffi.specs.Types.{as_layout, strange_layout};
ghost use Rattle.ffi.specs.Calls.{Numbered};
ghost use Rattle.image.specs.Samples.{plane_of};

use crate::types::{ChromaLayout, number_of, strange_layout, to_layout};
use image::Plane;

// `linear_plane`: one chroma plane by linear interpolation.
pub fn chroma_linear_plane(
    layout: ChromaLayout,
    plane: &[u8],
    stride: usize,
    s: &mut [f32],
    out: &mut [u16],
) -> u32
    ensures { Numbered (strange_layout layout)
        ((s.new ≡ s.old) × (out.new ≡ out.old))
        (λ a. LinearGiven (as_layout layout) (plane_of plane.now stride)
        s.old out.old
        a s.new out.new)
        result }
{
    if strange_layout(layout) {
        return 255;
    }
    let plane = Plane {
        bytes: plane,
        stride,
    };
    number_of(linear::linear_plane(to_layout(layout), plane, s, out))
}

// `guided_plane`: one chroma plane guided by luma.
pub fn chroma_guided_plane(
    layout: ChromaLayout,
    y: &[u8],
    y_stride: usize,
    plane: &[u8],
    stride: usize,
    s: &mut [f32],
    out: &mut [u16],
) -> u32
    ensures { Numbered (strange_layout layout)
        ((s.new ≡ s.old) × (out.new ≡ out.old))
        (λ a. GuidedGiven (as_layout layout)
        (plane_of y.now y_stride) (plane_of plane.now stride)
        s.old out.old
        a s.new out.new)
        result }
{
    if strange_layout(layout) {
        return 255;
    }
    let luma = Plane {
        bytes: y,
        stride: y_stride,
    };
    let plane = Plane {
        bytes: plane,
        stride,
    };
    number_of(guided_plane::guided_plane(to_layout(layout), luma, plane, s, out))
}

// `triangular_plane`: one chroma plane by the triangular filter on whole numbers.
pub fn chroma_triangular_plane(
    layout: ChromaLayout,
    plane: &[u8],
    stride: usize,
    out: &mut [u16],
) -> u32
    ensures { Numbered (strange_layout layout)
        (out.new ≡ out.old)
        (λ a. TriangularGiven (as_layout layout) (plane_of plane.now stride)
        out.old a out.new)
        result }
{
    if strange_layout(layout) {
        return 255;
    }
    let plane = Plane {
        bytes: plane,
        stride,
    };
    number_of(upsample::triangular_plane(to_layout(layout), plane, out))
}
