ghost use Rattle.std.specs.Prelude.{◌≡◌, ◌+◌, ◌*◌, ◌<◌, ◌≤◌, ◌^◌, ℕ, pos, IfOk, length, replicate};
ghost use Rattle.msl_lists.specs.Whole.{at, list_by};
ghost use Rattle.msl_local.specs.Parts.{flat};
ghost use Rattle.msl_array.specs.Arrays.{AreParts};
ghost use Rattle.msl_array.specs.Moves.{AreBlocks, BeginWhole, IsGathered};

use crate::parts::laid;
use msl_base::{NoMemory, bounds};
use std::alloc::Global;

// The numbers below n, in one part.
pub fn numbered(alloc: Global, n: usize) -> Result<Vec<Vec<i64>>, NoMemory>
    requires { n ≤ 2 ^ 60 }
    ensures { IfOk result (λ v. flat v.items ≡ list_by n pos) }
{
    let mut numbers = Vec::with_capacity(alloc, n)?;
    for i in 0..n {
        numbers.push_reserved(i as i64);
    }
    laid(alloc, 1, 1, numbers.as_slice())
}

// A number so many times.
pub fn repeated(alloc: Global, j: u32, n: usize) -> Result<Vec<i64>, NoMemory>
    ensures { IfOk result (λ v. v.items ≡ replicate n (pos j)) }
{
    Ok(vec![in alloc; j as i64; n]?)
}

// The blocks of these numbers in the place of all, with the members as before. Each number is copied once.
pub fn gathered(
    alloc: Global,
    parts: &[Vec<i64>],
    blocks: usize,
    size: usize,
    numbers: &[i64],
) -> Result<Vec<Vec<i64>>, NoMemory>
    requires parts { AreParts blocks parts.now }
    requires whole { length (flat parts.now) ≡ blocks * size }
    requires numbers { AreBlocks size (length (flat parts.now)) numbers.now }
    requires each { length numbers.now ≡ blocks }
    ensures parts { IfOk result (λ v. AreParts blocks v.items) }
    ensures gathered { IfOk result (λ v. IsGathered size numbers.now (flat parts.now) (flat v.items)) }
{
    let (b, p) = (blocks as u64, parts.len() as u64);
    let mut all = Vec::with_capacity(alloc, parts.len())?;
    for m in 0..parts.len() {
        let from = bounds(b, p, m as u64) as usize;
        let to = bounds(b, p, m as u64 + 1) as usize;
        let mine = &numbers[from..to];
        all.push_reserved(gathered_part(alloc, parts, size, mine)?);
    }
    Ok(all)
}

// The blocks of these numbers, one after the other.
fn gathered_part(
    alloc: Global,
    parts: &[Vec<i64>],
    size: usize,
    numbers: &[i64],
) -> Result<Vec<i64>, NoMemory>
    requires begin { BeginWhole size parts.now }
    requires few { length (flat parts.now) ≤ 2 ^ 60 }
    requires numbers { AreBlocks size (length (flat parts.now)) numbers.now }
    requires fits { length numbers.now * size ≤ 2 ^ 60 }
    ensures { IfOk result (λ v. IsGathered size numbers.now (flat parts.now) v.items) }
{
    let mut part = Vec::with_capacity(alloc, numbers.len() * size)?;
    for j in numbers {
        part.extend_from_slice(block_at(parts, size, *j as usize))?;
    }
    Ok(part)
}

// A block, which lies within one part.
fn block_at(parts: &[Vec<i64>], size: usize, j: usize) -> &[i64]
    requires begin { BeginWhole size parts.now }
    requires few { length (flat parts.now) ≤ 2 ^ 60 }
    requires within { j * size + size ≤ length (flat parts.now) }
    ensures long { length result.now ≡ size }
    ensures block { (t : ℕ) → t < size → at result.now t ≡ at (flat parts.now) (j * size + t) }
{
    let mut from = j * size;
    for part in parts {
        if from < part.len() {
            return &part[from..from + size];
        }
        from -= part.len();
    }
    &[]
}
