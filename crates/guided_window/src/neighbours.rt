// The neighbours of a cell along an axis, edges repeated: document 01's "rows with edges repeated".
ghost use Rattle.std.specs.Prelude.{◌≡◌, ◌+◌, ◌-◌, ◌<◌, min};

// Inner: the cell before cell i, which is cell 0 itself at the beginning.
pub fn prev(i: usize) -> usize
    ensures { result ≡ i - 1 }
{
    i.saturating_sub(1)
}

// Inner: the cell after cell i of n, which is the last one itself at the end.
pub fn next(i: usize, n: usize) -> usize
    requires { i < n }
    ensures { result ≡ min (i + 1) (n - 1) }
{
    (i + 1).min(n - 1)
}
