ghost use Rattle.std.specs.Prelude.{◌≡◌, ◌≤◌, vec_capacity, IfOk, IfErr, []};
ghost use Rattle.msl_base.specs.declared.answer.Halt.TheVariants.{NoMemory};

use msl_base::Halt;
use std::alloc::Global;

/// An empty list with room for `n` elements. It fails for want of memory alone.
pub fn room<X: Drop>(alloc: Global, n: usize) -> Result<Vec<X>, Halt>
    ensures none { IfOk result (λ v. v.items ≡ []) }
    ensures room { IfOk result (λ v. n ≤ vec_capacity v) }
    ensures err { IfErr result (λ h. h ≡ NoMemory) }
{
    match Vec::with_capacity(alloc, n) {
        Ok(v) => Ok(v),
        Err(_) => Err(Halt::NoMemory),
    }
}
