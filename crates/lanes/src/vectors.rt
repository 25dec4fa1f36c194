// Vectors: values that are computed with side by side, each in its lane. A proof sees a vector as the list of its lanes.
ghost use Rattle.std.specs.Prelude.{◌≡◌, ◌+◌, ◌≤◌, length, get_or};
ghost use Rattle.std.specs.Float.{nan};
ghost use Rattle.laws.specs.Lists.{table};

use std::simd::Simd;

// Inner: the values of s from `at` on, as many as there are lanes.
#[tactic(auto, using(crate::proofs::Loads::loaded))]
pub fn load<const N: usize>(s: &[f32], at: usize) -> Simd<f32, N>
    requires { at + N ≤ length s.now }
    ensures { result ≡ table N (λ k. get_or s.now (at + k) nan) }
{
    Simd::from_slice(&s[at..])
}
