// The least or the greatest of nine samples, for the cells that have neighbours on both sides: no edge is looked at, so that these loops
// compute many cells at a time. They are for samples of one byte and of two by their type, since bytes are compared more at a time.
//
// A window is here where a cell's left neighbours begin in the plane: in the row above, in its own and in the row below.
ghost use Rattle.std.specs.Prelude.{◌≡◌, ℕ, ◌+◌, ◌*◌, ◌≤◌, ◌<◌, length, get_or};
ghost use Rattle.laws.specs.Floats.{f32};
ghost use Rattle.laws.specs.Lists.{put};
ghost use Rattle.image.specs.Samples.{sample_of};
ghost use Rattle.guided_window.specs.Inner.Buffers.{on};
ghost use Rattle.guided_down.specs.Inner.Nines.{whole_op, three_from, nine_from};
ghost use Rattle.guided_down.specs.Inner.Slopes.{Inside};

use crate::picks::Pick;
use guided_window::Window;
use lanes::Lanes;

// A sample as a plane holds it. `pick` stands in both impls and isn't one for all: over `Ord` alone the smaller is known by the order of the
// type, and not as a number.
pub trait Sample: Copy {
    ghost BYTES: { ℕ };

    // How many bytes it has.
    const BYTES: usize;

    ghost number: { Self → ℕ };

    // The sample that begins at byte `at`.
    fn read(plane: &[u8], at: usize) -> Self
        requires { at + BYTES ≤ length plane.now }
        ensures { number result ≡ sample_of BYTES plane.now at };

    fn pick(self, other: Self, pick: Pick) -> Self
        ensures { number result ≡ whole_op pick (number self) (number other) };

    fn float(self) -> f32
        ensures { result ≡ f32 (number self) };
}

impl Sample for u8 {
    ghost BYTES = { 1 };

    const BYTES: usize = 1;

    ghost number = { λ x. x };

    #[tactic(auto, unfolding(image::specs::Samples::sample_of))]
    fn read(plane: &[u8], at: usize) -> u8 {
        plane[at]
    }

    fn pick(self, other: u8, pick: Pick) -> u8 {
        match pick {
            Pick::Smaller => self.min(other),
            Pick::Greater => self.max(other),
        }
    }

    fn float(self) -> f32 {
        fround::whole(u32::from(self))
    }
}

impl Sample for u16 {
    ghost BYTES = { 2 };

    const BYTES: usize = 2;

    ghost number = { λ x. x };

    fn read(plane: &[u8], at: usize) -> u16 {
        image::sample(plane, 2, at)
    }

    fn pick(self, other: u16, pick: Pick) -> u16 {
        match pick {
            Pick::Smaller => self.min(other),
            Pick::Greater => self.max(other),
        }
    }

    fn float(self) -> f32 {
        fround::whole(u32::from(self))
    }
}

// Inner: the extreme of three samples.
pub fn pick3<S: Sample>(pick: Pick, a: S, b: S, c: S) -> S
    ensures { S.number result ≡ whole_op pick (whole_op pick (S.number a) (S.number b)) (S.number c) }
{
    a.pick(b, pick).pick(c, pick)
}

// The extreme of the three samples from byte `at` on.
#[tactic(auto, unfolding(crate::specs::Inner::Nines::three_from))]
fn three<S: Sample>(plane: &[u8], pick: Pick, at: usize) -> S
    requires { at + 3 * S.BYTES ≤ length plane.now }
    ensures { S.number result ≡ three_from pick S.BYTES plane.now at }
{
    let a = S::read(plane, at);
    let b = S::read(plane, at + S::BYTES);
    let c = S::read(plane, at + 2 * S::BYTES);
    pick3(pick, a, b, c)
}

// The extreme of nine samples, three from each of a window's places on.
#[tactic(auto, unfolding(crate::specs::Inner::Nines::nine_from))]
fn nine<S: Sample>(plane: &[u8], pick: Pick, t: Window) -> S
    requires { Inside t (3 * S.BYTES) (length plane.now) }
    ensures { S.number result ≡ nine_from pick S.BYTES plane.now t }
{
    let a: S = three(plane, pick, t.up);
    let b: S = three(plane, pick, t.at);
    let c: S = three(plane, pick, t.down);
    pick3(pick, a, b, c)
}

// Inner: the extremes round n cells one by one, to s from dst on; the first cell's left neighbours begin at t.
#[tactic(auto, using(guided_window::proofs::Puts::put_more, crate::proofs::Sixteens::nine_inside), unfolding(laws::specs::Lists::put))]
pub fn nine_cells<S: Sample>(
    plane: &[u8],
    pick: Pick,
    t: Window,
    n: usize,
    s: &mut [f32],
    dst: usize,
)
    requires { Inside t ((n + 2) * S.BYTES) (length plane.now) × (dst + n ≤ length s.old) }
    ensures { s.new ≡ put s.old dst n (λ i. f32 (nine_from pick S.BYTES plane.now (on t (i * S.BYTES)))) }
{
    for i in 0..n {
        let v: S = nine(plane, pick, t.on(i * S::BYTES));
        s[dst + i] = v.float();
    }
}

// The extremes round sixteen cells of one-byte samples; the first cell's left neighbours begin at t.
fn byte_block(plane: &[u8], pick: Pick, t: Window) -> [u8; Lanes::PIXELS]
    requires { Inside t 18 (length plane.now) }
    ensures { (k : ℕ) → k < 16 → get_or result k 0 ≡ nine_from pick 1 plane.now (on t k) }
{
    let mut block = [0; Lanes::PIXELS];
    for k in 0..Lanes::PIXELS {
        block[k] = nine(plane, pick, t.on(k));
    }
    block
}

// The extremes round sixteen cells of one-byte samples, from cell i on, to s from dst + i on; cell 0's left neighbours begin at t.
fn put_nines(plane: &[u8], pick: Pick, t: Window, s: &mut [f32], dst: usize, i: usize)
    requires { Inside t (i + 18) (length plane.now) × (dst + i + 16 ≤ length s.old) }
    ensures { s.new ≡ put s.old (dst + i) 16 (λ k. f32 (nine_from pick 1 plane.now (on t (i + k)))) }
{
    lanes::put_bytes(s, dst + i, byte_block(plane, pick, t.on(i)));
}

// Inner: the extremes round n cells of one-byte samples, to s from dst on; the first cell's left neighbours begin at t. They are made by blocks
// of sixteen, as many bytes as a vector of 128 bits holds, and where cells are left, by one more that ends with them and overlaps the one
// before; fewer than sixteen one by one.
#[tactic(auto, unfolding(laws::specs::Lists::put))]
pub fn byte_run(plane: &[u8], pick: Pick, t: Window, n: usize, s: &mut [f32], dst: usize)
    requires { Inside t (n + 2) (length plane.now) × (dst + n ≤ length s.old) }
    ensures { s.new ≡ put s.old dst n (λ i. f32 (nine_from pick 1 plane.now (on t i))) }
{
    if n < Lanes::PIXELS {
        nine_cells::<u8>(plane, pick, t, n, s, dst);
        return;
    }
    for b in 0..n / Lanes::PIXELS {
        put_nines(plane, pick, t, s, dst, b * Lanes::PIXELS);
    }
    if n % Lanes::PIXELS == 0 {
        return;
    }
    put_nines(plane, pick, t, s, dst, n - Lanes::PIXELS);
}
