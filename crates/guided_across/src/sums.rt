// Rows of scratch that a chroma row across is made of: a plane's samples, and sums of three neighbours.
//
// What is summed, cells or products, is a type of `Terms`: products are formed as they are summed, so that no row of products is kept.
ghost use Rattle.std.specs.Prelude.{◌≡◌, List, ℕ, ◌+◌, ◌-◌, ◌*◌, ◌≤◌, ◌<◌, Float, length};
ghost use Rattle.laws.specs.Floats.{◌⊕◌};
ghost use Rattle.guided_across.specs.Inner.Sums.{load_run, cells_at, products_at, three_run, three_row, Behind};
ghost use Rattle.guided_across.specs.Inner.Terms.{fewer_cells, behind_cells, behind_products};

use fround::whole;
use guided_window::{next, prev};

// Inner: the n samples of a plane from byte `at` on as floats, to s from dst on.
#[tactic(auto, using(guided_window::proofs::Puts::put_more, laws::proofs::Rows::row_fits), unfolding(laws::specs::Lists::put, crate::specs::Inner::Sums::load_run))]
pub fn load_row(plane: &[u8], sample_bytes: usize, at: usize, n: usize, s: &mut [f32], dst: usize)
    requires le_sample_bytes { (1 ≤ sample_bytes) × (sample_bytes ≤ 2) }
    requires sample_bytes_in_bounds { (at + n * sample_bytes ≤ length plane.now) × (dst + n ≤ length s.old) }
    ensures { s.new ≡ load_run plane.now sample_bytes at n dst s.old }
{
    for i in 0..n {
        s[dst + i] = whole(u32::from(image::sample(plane, sample_bytes, at + i * sample_bytes)));
    }
}

// What is summed, term by term, of what scratch holds.
pub trait Terms: Copy {
    ghost term: { Self → List Float → ℕ → Float };

    // The first n terms are made of what lies before a place.
    ghost before: { Self → ℕ → ℕ → Type 0 };

    // Term i.
    fn term(self, s: &[f32], i: usize) -> f32
        requires { before self (i + 1) (length s.now) }
        ensures { result ≡ term self s.now i };

    // Fewer terms lie before it too, and before a place further on.
    ghost fewer: { (t : Self) (n k at to : ℕ) → before t n at → k ≤ n → at ≤ to → before t k to };

    // What is stored behind the terms leaves them.
    ghost behind: { (t : Self) (n dst : ℕ) → before t n dst → Behind (term t) n dst };
}

// The cells of the row at src.
#[derive(Clone, Copy)]
pub struct Cells {
    pub src: usize,
}

impl Terms for Cells {
    ghost term = { λ t. cells_at t.src };

    ghost before = { λ t n at. t.src + n ≤ at };

    fn term(self, s: &[f32], i: usize) -> f32 {
        s[self.src + i]
    }

    ghost fewer = { λ t n k at to h p q. fewer_cells t.src n k at to h p q };

    ghost behind = { λ t n dst h. behind_cells t.src n dst h };
}

// The products of the cells of the rows at a and at b; where a is b they are squares.
#[derive(Clone, Copy)]
pub struct Products {
    pub a: usize,
    pub b: usize,
}

impl Terms for Products {
    ghost term = { λ t. products_at t.a t.b };

    ghost before = { λ t n at. (t.a + n ≤ at) × (t.b + n ≤ at) };

    fn term(self, s: &[f32], i: usize) -> f32 {
        s[self.a + i] * s[self.b + i]
    }

    ghost fewer = { λ t n k at to h p q. (fewer_cells t.a n k at to h.0 p q, fewer_cells t.b n k at to h.1 p q) };

    ghost behind = { λ t n dst h. behind_products t.a t.b n dst h.0 h.1 };
}

// Three neighbours added from the left: document 01's "(left + middle) + right".
fn sum3(a: f32, b: f32, c: f32) -> f32
    ensures { result ≡ a ⊕ b ⊕ c }
{
    (a + b) + c
}

// Sum i of n terms, with the edge repeated where a neighbour is missing: for the first and the last term.
fn sum_at<T: Terms>(s: &mut [f32], terms: T, n: usize, dst: usize, i: usize)
    requires { (i < n) × T.before terms n dst × (dst + n ≤ length s.old) }
    ensures { s.new ≡ three_run (T.term terms) n dst i 1 s.old }
{
    let l = prev(i);
    let r = next(i, n);
    let v = sum3(terms.term(s, l), terms.term(s, i), terms.term(s, r));
    s[dst + i] = v;
}

// The sums of n terms without the first and the last, which alone lack a neighbour: no edge is looked at in this loop.
#[tactic(auto, unfolding(laws::specs::Lists::put, crate::specs::Inner::Sums::three_run))]
fn sum_inner<T: Terms>(s: &mut [f32], terms: T, n: usize, dst: usize)
    requires { (1 < n) × T.before terms n dst × (dst + n ≤ length s.old) }
    ensures { s.new ≡ three_run (T.term terms) n dst 1 (n - 2) s.old }
{
    for i in 0..n - 2 {
        let v = sum3(terms.term(s, i), terms.term(s, i + 1), terms.term(s, i + 2));
        s[dst + 1 + i] = v;
    }
}

// Inner: the sums of three neighbours of n terms, edges repeated, to s from dst on.
pub fn sum_row<T: Terms>(s: &mut [f32], terms: T, n: usize, dst: usize)
    requires { (0 < n) × T.before terms n dst × (dst + n ≤ length s.old) }
    ensures { s.new ≡ three_row (T.term terms) n dst s.old }
{
    sum_at(s, terms, n, dst, 0);
    if n == 1 {
        return;
    }
    sum_inner(s, terms, n, dst);
    sum_at(s, terms, n, dst, n - 1);
}
