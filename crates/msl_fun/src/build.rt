// An expression from its parts.

ghost use Rattle.std.specs.Prelude.{◌≡◌, IfOk};
ghost use Rattle.msl_fun.specs.Shapes.{minus, opposite, binary, choice, binding, looping, calling};

use crate::{BinOp, Expr, Exprs};
use sqlite_items::Boxed;
use std::alloc::{AllocError, Global};

impl Expr {
    #[tactic(auto, using(crate::proofs::Shapes::minus_is))]
    pub fn neg(alloc: Global, a: Expr) -> Result<Expr, AllocError>
        ensures { IfOk result (λ e. e ≡ minus a) }
    {
        Ok(Expr::Neg(Boxed::new(alloc, a)?))
    }

    #[tactic(auto, using(crate::proofs::Shapes::opposite_is))]
    pub fn not(alloc: Global, a: Expr) -> Result<Expr, AllocError>
        ensures { IfOk result (λ e. e ≡ opposite a) }
    {
        Ok(Expr::Not(Boxed::new(alloc, a)?))
    }

    pub fn bin(alloc: Global, op: BinOp, a: Expr, b: Expr) -> Result<Expr, AllocError>
        ensures { IfOk result (λ e. e ≡ binary op a b) }
    {
        Ok(Expr::Bin(op, Boxed::new(alloc, a)?, Boxed::new(alloc, b)?))
    }

    #[tactic(auto, using(crate::proofs::Shapes::choice_is))]
    pub fn choice(alloc: Global, c: Expr, a: Expr, b: Expr) -> Result<Expr, AllocError>
        ensures { IfOk result (λ e. e ≡ choice c a b) }
    {
        let c = Boxed::new(alloc, c)?;
        Ok(Expr::If(c, Boxed::new(alloc, a)?, Boxed::new(alloc, b)?))
    }

    #[tactic(auto, using(crate::proofs::Shapes::binding_is))]
    pub fn binding(alloc: Global, a: Expr, b: Expr) -> Result<Expr, AllocError>
        ensures { IfOk result (λ e. e ≡ binding a b) }
    {
        Ok(Expr::Let(Boxed::new(alloc, a)?, Boxed::new(alloc, b)?))
    }

    #[tactic(auto, using(crate::proofs::Shapes::looping_is))]
    pub fn looping(alloc: Global, n: Expr, s: Expr, e: Expr) -> Result<Expr, AllocError>
        ensures { IfOk result (λ l. l ≡ looping n s e) }
    {
        let n = Boxed::new(alloc, n)?;
        Ok(Expr::Loop(n, Boxed::new(alloc, s)?, Boxed::new(alloc, e)?))
    }

    pub fn call(f: u32, args: Exprs) -> Expr
        ensures { result ≡ calling f args }
    {
        Expr::Call(f, args)
    }
}
