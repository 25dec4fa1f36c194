// Small tests on numbers, as the tables of refusals name them.
ghost use Rattle.std.specs.Prelude.{◌≡◌, ◌+◌, ◌*◌, ltb};
ghost use Rattle.laws.specs.Numbers.{outside_of};

// Inner: whether x lies outside lo..=hi.
pub fn outside(lo: usize, hi: usize, x: usize) -> bool
    ensures { result ≡ outside_of lo hi x }
{
    x < lo || hi < x
}

// Inner: whether a + b is more than n. It subtracts, so that no sum can pass 2^64.
pub fn sum_passes(a: usize, b: usize, n: usize) -> bool
    ensures { result ≡ ltb n (a + b) }
{
    n < a || n - a < b
}

// Inner: whether a * b is more than n. It divides, since the product of two numbers that a caller hands over may be past 2^64.
pub fn product_passes(a: usize, b: usize, n: usize) -> bool
    ensures { result ≡ ltb n (a * b) }
{
    if b == 0 {
        return false;
    }
    n / b < a
}

// Inner: whether a * b * c is more than n, whatever the numbers.
pub fn volume_passes(a: usize, b: usize, c: usize, n: usize) -> bool
    ensures { result ≡ ltb n (a * b * c) }
{
    if c == 0 {
        return false;
    }
    product_passes(a, b, n / c)
}
