// The ranks of the functions that expressions call.

ghost use Rattle.std.specs.Prelude.{◌≡◌, slice_index_or};
ghost use Rattle.msl_fun.specs.Checks.{rank_called, greatest};

use crate::Expr;

// The greatest rank of the functions that an expression calls, or 0.
#[cycle(rank_called)]
fn rank_called(ranks: &[u32], e: &Expr) -> u32
    ensures { result ≡ rank_called (λ k. slice_index_or ranks.now k 0) e.now }
{
    match e {
        Expr::Lit(_) | Expr::Slot(_) => 0,
        Expr::Neg(a) | Expr::Not(a) => rank_called(ranks, a.get()),
        Expr::Bin(_, a, b) | Expr::Let(a, b) => {
            rank_called(ranks, a.get()).max(rank_called(ranks, b.get()))
        }
        Expr::If(a, b, c) | Expr::Loop(a, b, c) => {
            let first = rank_called(ranks, a.get());
            let second = rank_called(ranks, b.get());
            let third = rank_called(ranks, c.get());
            first.max(second.max(third))
        }
        Expr::Call(f, args) => rank_at(ranks, *f).max(greatest_called(ranks, args.as_slice())),
    }
}

// The same of several expressions.
#[cycle(rank_called)]
pub fn greatest_called(ranks: &[u32], es: &[Expr]) -> u32
    ensures { result ≡ greatest (rank_called (λ k. slice_index_or ranks.now k 0)) es.now }
{
    let mut most = 0;
    for e in es {
        most = rank_called(ranks, e).max(most);
    }
    most
}

// The rank at a place, or 0 past the end.
fn rank_at(ranks: &[u32], at: u32) -> u32
    ensures { result ≡ slice_index_or ranks.now at 0 }
{
    ranks.get(at as usize).copied().unwrap_or(0)
}
