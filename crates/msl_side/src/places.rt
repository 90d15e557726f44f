ghost use Rattle.std.specs.Prelude.{◌≡◌, ◌<◌, ◌≤◌, ℕ, vec_len, vec_capacity, IfOk, []};
ghost use Rattle.std.specs.Thread.{IsSync, IsSend};
ghost use Rattle.msl_side.specs.Places.{Led, Longer};

use std::thread::{Threads, join};

/// What `f` gives at each place below `n`, or the refusal of the least place that has one. Each place but the first has
/// a thread of its own; where none can be had, the work is done on the caller's. The room is for the answers.
// The handle of threads stays with the caller: the chain sends the last place to a thread, and goes on here with the
// places before it. So `R` needn't be `Sync`.
#[cycle(beside)]
pub fn beside<R: Threads, X: Send + Drop, E: Send + Drop, F: Fn(usize) -> Result<X, E> + Sync>(
    rt: &R,
    n: usize,
    f: &F,
    room: Vec<X>,
) -> Result<Vec<X>, E>
    requires room { n ≤ vec_capacity room }
    requires none { room.items ≡ [] }
    requires can { (i : ℕ) → i < n → F.pre f.now i }
    ensures led { Led (F.post f.now) n result }
    ensures room { IfOk result (λ v. vec_capacity v ≡ vec_capacity room) }
{
    if n < 2 {
        return in_turn(n, f, room);
    }
    let last = n - 1;
    let (x, all) = join(
        rt,
        || -> Result<X, E>
            requires { F.pre f.now last }
            ensures { F.post f.entry.now last result }
        { f(last) },
        || -> Result<Vec<X>, E>
            requires { IsSync F.row × IsSend X.row × IsSend E.row × (last ≤ vec_capacity room) × (room.items ≡ []) × ((i : ℕ) → i < last → F.pre f.now i) }
            ensures { Led (F.post f.entry.now) last result × IfOk result (λ v. vec_capacity v ≡ vec_capacity room) }
        { beside(rt, last, f, room) },
    );
    both(all, x)
}

// The answers and one more, or the first refusal.
fn both<X: Drop, E: Drop>(all: Result<Vec<X>, E>, x: Result<X, E>) -> Result<Vec<X>, E>
    requires { IfOk all (λ v. vec_len v < vec_capacity v) }
    ensures longer { Longer all x result }
    ensures room { IfOk result (λ v. IfOk all (λ w. vec_capacity v ≡ vec_capacity w)) }
{
    let mut all = all?;
    let x = x?;
    all.push_reserved(x);
    Ok(all)
}

/// What `f` gives at each place below `n`, one after the other, or the first refusal. The room is for the answers.
pub fn in_turn<X: Drop, E: Drop, F: Fn(usize) -> Result<X, E>>(
    n: usize,
    f: &F,
    room: Vec<X>,
) -> Result<Vec<X>, E>
    requires room { n ≤ vec_capacity room }
    requires none { room.items ≡ [] }
    requires can { (i : ℕ) → i < n → F.pre f.now i }
    ensures led { Led (F.post f.now) n result }
    ensures room { IfOk result (λ v. vec_capacity v ≡ vec_capacity room) }
{
    let mut all = room;
    for i in 0..n {
        match f(i) {
            Ok(x) => all.push_reserved(x),
            Err(e) => return Err(e),
        }
    }
    Ok(all)
}
