ghost use Rattle.std.specs.Prelude.{◌≡◌, ◌<◌, ◌≤◌, ◌+◌, ◌^◌, ◌++◌, IfOk, length};
ghost use Rattle.msl_base.specs.declared.limits.TheConstants.{MOST_BLOCKS, MOST_MEMBERS};
ghost use Rattle.msl_local.specs.Parts.{flat, lengths};
ghost use Rattle.msl_array.specs.Arrays.{share, AreParts};

use msl_base::{NoMemory, Rec, bounds};
use msl_local::start;
use std::alloc::Global;

// Where the part of member m begins: n elements lie in so many blocks, and these with so many members.
fn share(n: usize, blocks: usize, members: usize, m: usize) -> usize
    requires some { 1 ≤ blocks }
    requires few { blocks ≤ MOST_BLOCKS }
    requires members { members ≤ MOST_MEMBERS }
    requires some_members { 1 ≤ members }
    requires within { m ≤ members }
    ensures share { result ≡ share n blocks members m }
{
    let first = bounds(blocks as u64, members as u64, m as u64);
    bounds(n as u64, blocks as u64, first) as usize
}

// The list in parts, one for each member. Each number is copied once.
pub fn laid(
    alloc: Global,
    blocks: usize,
    members: usize,
    xs: &[i64],
) -> Result<Vec<Vec<i64>>, NoMemory>
    requires some { 1 ≤ blocks }
    requires blocks { blocks ≤ MOST_BLOCKS }
    requires some_members { 1 ≤ members }
    requires members { members ≤ MOST_MEMBERS }
    ensures list { IfOk result (λ v. flat v.items ≡ xs.now) }
    ensures parts { IfOk result (λ v. AreParts blocks v.items) }
    ensures members { IfOk result (λ v. length v.items ≡ members) }
{
    let all = known_short(xs);
    let mut parts = Vec::with_capacity(alloc, members)?;
    for m in 0..members {
        let from = share(all.len(), blocks, members, m);
        let to = share(all.len(), blocks, members, m + 1);
        let mine = &all[from..to];
        parts.push_reserved(Vec::from_slice(alloc, mine)?);
    }
    Ok(parts)
}

// The list. What a call answers with is known to have less than 2 ^ 63 bytes, as each slice has.
fn known_short(xs: &[i64]) -> &[i64]
    ensures same { result.now ≡ xs.now }
    ensures few { length result.now ≤ 2 ^ 60 }
{
    &xs[..]
}

// How many numbers lie in parts.
pub fn number_of(parts: &[Vec<i64>]) -> usize
    requires { length (flat parts.now) ≤ 2 ^ 60 }
    ensures { result ≡ length (flat parts.now) }
{
    start(parts, parts.len())
}

// The numbers of all parts, which are copied once.
pub fn all_of(alloc: Global, parts: &[Vec<i64>]) -> Result<Rec, NoMemory>
    requires { length (flat parts.now) ≤ 2 ^ 60 }
    ensures { IfOk result (λ r. r.numbers ≡ flat parts.now) }
{
    let mut all = Rec::new(alloc);
    all.reserve(number_of(parts))?;
    for part in parts {
        put_all(&mut all, part.as_slice());
    }
    Ok(all)
}

// Appends numbers to the spare room.
fn put_all(all: &mut Rec, xs: &[i64])
    requires { length xs.now ≤ all.old.spare }
    ensures numbers { all.new.numbers ≡ all.old.numbers ++ xs.now }
    ensures room { all.new.spare + length xs.now ≡ all.old.spare }
{
    for x in xs {
        all.put(*x);
    }
}
