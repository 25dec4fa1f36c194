// Samples of a PGM image, whose bytes stand the high one first, as a plane has them, the low one first. They are copied, since the input is
// lent to be read alone; each plane stands in the copy where its rows stand in the input.
ghost use Rattle.std.specs.Prelude.{◌≡◌, ◌+◌, ◌-◌, ◌*◌, ◌≤◌, length, get_or};
ghost use Rattle.laws.specs.Lists.{put};
ghost use Rattle.netpbm.specs.Inner.Taken.{Taken};
ghost use Rattle.picture.specs.Inner.Planes.{Turned, PlanesTurned};

use netpbm::Reading;

// Room for the planes of every input that is read: as many bytes as `Reading::LONGEST` of netpbm. It is a function of its own, so that no
// check behind it counts that length.
pub(crate) fn empty() -> [u8; 49_152] {
    [0; 49_152]
}

// Copies the b bytes from `at` on, the last one first. By places, since a copy and a `reverse` of slices this short would each be a call.
fn turn_sample(input: &[u8], at: usize, b: usize, planes: &mut [u8])
    requires { (at + b ≤ length input.now) × (at + b ≤ length planes.old) }
    ensures { planes.new ≡ put planes.old at b (λ t. get_or input.now (at + (b - 1 - t)) 0) }
{
    for t in 0..b {
        planes[at + t] = input[at + (b - 1 - t)];
    }
}

// Copies n samples of b bytes each from `at` on, each with its bytes in the other order.
fn turn(input: &[u8], at: usize, b: usize, n: usize, planes: &mut [u8])
    requires { (at + n * b ≤ length input.now) × (at + n * b ≤ length planes.old) }
    ensures { Turned b n at input.now planes.old planes.new }
{
    for i in 0..n {
        turn_sample(input, at + i * b, b, planes);
    }
}

// Copies the samples of the three images that were read, each plane to where its rows stand.
#[tactic(auto, using(crate::proofs::Readings::pixels_most, crate::proofs::Readings::cells_most))]
pub(crate) fn turn_planes(input: &[u8], reading: Reading, planes: &mut [u8])
    requires taken { Taken input.now reading }
    requires input_in_bounds { length input.now ≤ length planes.old }
    ensures { PlanesTurned reading input.now planes.new }
{
    let layout = reading.layout;
    let b = layout.sample_bytes;
    let pixels = layout.w * layout.h;
    let cells = layout.cw * layout.ch;
    turn(input, reading.y, b, pixels, planes);
    turn(input, reading.cb, b, cells, planes);
    turn(input, reading.cr, b, cells, planes);
}
