ghost use Rattle.std.specs.Prelude.{◌≡◌, ◌<◌, ◌≤◌};
ghost use Rattle.msl_base.specs.Blocks.{begin};
ghost use Rattle.msl_base.specs.declared.limits.TheConstants.{MOST_BLOCKS};

/// Where block `j` of `n` elements in `b` blocks begins. The block goes up to where the next one begins, and the last
/// up to `n`, which is `bounds(n, b, b)`. It takes no memory.
pub fn bounds(n: u64, b: u64, j: u64) -> u64
    requires some { 0 < b }
    requires few { b ≤ MOST_BLOCKS }
    requires within { j ≤ b }
    ensures { result ≡ begin n b j }
{
    j * (n / b) + j.min(n % b)
}
