ghost use Rattle.std.specs.Prelude.{◌≡◌, ◌+◌, ◌<◌, ◌≤◌, [], IfOk, length, vec_capacity};
ghost use Rattle.msl_base.specs.Blocks.{begin};
ghost use Rattle.msl_base.specs.declared.limits.TheConstants.{MOST_BLOCKS};
ghost use Rattle.msl_local.specs.Folds.{all_of, IsJoined};

use msl_base::{Halt, bounds};

/// Which of `n` parts, from the first up to the last, a hand of so many has.
pub fn held_by(n: usize, hands: usize, h: usize) -> (usize, usize)
    requires few { hands ≤ MOST_BLOCKS }
    requires within { h < hands }
    ensures from { result.0 ≡ begin n hands h }
    ensures to { result.1 ≡ begin n hands (h + 1) }
    ensures order { result.0 ≤ result.1 }
    ensures within { result.1 ≤ n }
{
    let (n, hands, h) = (n as u64, hands as u64, h as u64);
    (
        bounds(n, hands, h) as usize,
        bounds(n, hands, h + 1) as usize,
    )
}

/// The parts of all hands, one after the other, in the room that is given, or what stopped them. It takes no memory.
pub fn joined(
    room: Vec<Vec<i64>>,
    hands: Result<Vec<Vec<Vec<i64>>>, Halt>,
) -> Result<Vec<Vec<i64>>, Halt>
    requires none { room.items ≡ [] }
    requires room { IfOk hands (λ v. length (all_of v.items) ≤ vec_capacity room) }
    ensures { IsJoined hands result }
{
    match hands {
        Ok(all) => Ok(in_order(room, all)),
        Err(h) => Err(h),
    }
}

fn in_order(room: Vec<Vec<i64>>, hands: Vec<Vec<Vec<i64>>>) -> Vec<Vec<i64>>
    requires none { room.items ≡ [] }
    requires room { length (all_of hands.items) ≤ vec_capacity room }
    ensures { result.items ≡ all_of hands.items }
{
    let mut all = room;
    let mut left = hands;
    while !left.is_empty() {
        let mut hand = left.remove(0);
        all.append(&mut hand).unwrap();
    }
    all
}
