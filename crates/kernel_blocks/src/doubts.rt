// The doubts of a block's pixels as one, by which all sixteen take the same form.
ghost use Rattle.std.specs.Prelude.{◌≡◌, ℕ, ◌<◌};

use crate::stores::Block;

// Inner: 0 where `doubt` is 0 at each of a block's sixteen pixels. Doubts are joined without a branch, so that they become wide instructions.
pub fn any_doubt<F: Fn(usize) -> u32>(doubt: F) -> u32
    requires { (i : ℕ) → i < Block.LEN → F.pre doubt i }
    ensures { result ≡ 0 → (i : ℕ) → i < Block.LEN → F.post doubt i 0 }
{
    let mut joined = 0;
    for i in 0..Block::LEN {
        joined |= doubt(i);
    }
    joined
}
