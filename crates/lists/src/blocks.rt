ghost use Rattle.std.specs.Prelude.{ℕ};
ghost use Rattle.lists.specs.Blocks.{Tells, Located};

/// In which of so many blocks, laid end to end, a number stands, and which number it has there; none past the last block.
/// The closure tells how long a block is.
pub fn locate<F: Fn(usize) -> usize>(
    blocks: usize,
    length_of: F,
    number: usize,
) -> Option<(usize, usize)>
    requires { F.IsAlwaysCallable length_of }
    ensures { (lengths : ℕ → ℕ) → Tells (F.post length_of) blocks lengths → Located lengths blocks number result }
{
    // The one place where a number is taken apart: every list of blocks is asked through it.
    let mut left = number;
    for block in 0..blocks {
        let length = length_of(block);
        if left < length {
            return Some((block, left));
        }
        left -= length;
    }
    None
}
