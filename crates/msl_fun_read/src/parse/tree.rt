// Expressions from their parts, none where they come to be deeper than those of a function may be.

ghost use Rattle.std.specs.Prelude.{◌≡◌, ◌≤◌, IfOk, IfSome, Some, None};
ghost use Rattle.msl_base.specs.declared.limits.TheConstants.{MOST_DEPTH};
ghost use Rattle.msl_fun.specs.Shapes.{minus, opposite, binary, choice, binding, looping};
ghost use Rattle.msl_fun.specs.Checks.{depth, greatest};
ghost use Rattle.msl_fun_read.specs.Grammar.{if_shallow, over_one, over_two, over_three, call_of, all_of};

use msl_base::limits::MOST_DEPTH;
use msl_fun::{BinOp, Expr, Exprs};
use sqlite_items::Items;
use std::alloc::{AllocError, Global};
use std::marker::Model;

// An expression with its depth, or none where it would be too deep.
#[derive(Drop)]
pub struct Tree {
    expr: Option<Expr>,
    deep: u32,
}

impl Model for Tree {
    ghost use Rattle.std.specs.Prelude.{◌≡◌, ◌≤◌, Option, IfSome};
    ghost use Rattle.std.specs.Coded.{codes};
    ghost use Rattle.msl_fun.specs.declared.expr.Expr.{Expr};
    ghost use Rattle.msl_fun.specs.contracts.expr.Expr as e;
    ghost use Rattle.msl_fun.specs.Checks.{depth};
    ghost use Rattle.msl_base.specs.declared.limits.TheConstants.{MOST_DEPTH};

    ghost Value = { Option Expr };

    ghost coded = { Prim.hlevel (codes, e.the_row.coded) };

    ghost view = { λ t. t.expr };

    ghost invariant = { λ t. IfSome t.expr (λ e. t.deep ≡ depth e) × (t.deep ≤ MOST_DEPTH) };
}

pub type Trees = Items<Tree>;

impl Tree {
    // A literal or a variable.
    pub fn leaf(expr: Expr) -> Tree
        requires { depth expr ≡ 1 }
        ensures { result ≡ Some expr }
    {
        Tree {
            expr: Some(expr),
            deep: 1,
        }
    }

    // An expression of this depth.
    fn if_shallow(expr: Expr, deep: u32) -> Tree
        requires { deep ≡ depth expr }
        ensures { result ≡ if_shallow expr }
    {
        if deep <= MOST_DEPTH {
            Tree {
                expr: Some(expr),
                deep,
            }
        } else {
            Tree::none()
        }
    }

    fn none() -> Tree
        ensures { result ≡ None }
    {
        Tree {
            expr: None,
            deep: 0,
        }
    }

    pub fn minus(alloc: Global, a: Tree) -> Result<Tree, AllocError>
        ensures { IfOk result (λ t. t ≡ over_one minus a) }
    {
        let deep = 1 + a.deep;
        let Some(x) = a.expr else {
            return Ok(Tree::none());
        };
        Ok(Tree::if_shallow(Expr::neg(alloc, x)?, deep))
    }

    pub fn opposite(alloc: Global, a: Tree) -> Result<Tree, AllocError>
        ensures { IfOk result (λ t. t ≡ over_one opposite a) }
    {
        let deep = 1 + a.deep;
        let Some(x) = a.expr else {
            return Ok(Tree::none());
        };
        Ok(Tree::if_shallow(Expr::not(alloc, x)?, deep))
    }

    pub fn binary(alloc: Global, op: BinOp, a: Tree, b: Tree) -> Result<Tree, AllocError>
        ensures { IfOk result (λ t. t ≡ over_two (binary op) a b) }
    {
        let deep = 1 + a.deep.max(b.deep);
        let Some((x, y)) = a.expr.zip(b.expr) else {
            return Ok(Tree::none());
        };
        Ok(Tree::if_shallow(Expr::bin(alloc, op, x, y)?, deep))
    }

    pub fn binding(alloc: Global, a: Tree, b: Tree) -> Result<Tree, AllocError>
        ensures { IfOk result (λ t. t ≡ over_two binding a b) }
    {
        let deep = 1 + a.deep.max(b.deep);
        let Some((x, y)) = a.expr.zip(b.expr) else {
            return Ok(Tree::none());
        };
        Ok(Tree::if_shallow(Expr::binding(alloc, x, y)?, deep))
    }

    pub fn choice(alloc: Global, c: Tree, a: Tree, b: Tree) -> Result<Tree, AllocError>
        ensures { IfOk result (λ t. t ≡ over_three choice c a b) }
    {
        let deep = 1 + c.deep.max(a.deep.max(b.deep));
        let Some((x, (y, z))) = c.expr.zip(a.expr.zip(b.expr)) else {
            return Ok(Tree::none());
        };
        Ok(Tree::if_shallow(Expr::choice(alloc, x, y, z)?, deep))
    }

    pub fn looping(alloc: Global, n: Tree, s: Tree, e: Tree) -> Result<Tree, AllocError>
        ensures { IfOk result (λ t. t ≡ over_three looping n s e) }
    {
        let deep = 1 + n.deep.max(s.deep.max(e.deep));
        let Some((x, (y, z))) = n.expr.zip(s.expr.zip(e.expr)) else {
            return Ok(Tree::none());
        };
        Ok(Tree::if_shallow(Expr::looping(alloc, x, y, z)?, deep))
    }

    // A call of a function at these arguments.
    pub fn call(alloc: Global, fun: u32, args: Trees) -> Result<Tree, AllocError>
        ensures { IfOk result (λ t. t ≡ call_of fun (all_of args)) }
    {
        let Some(parts) = Parts::of(alloc, args)? else {
            return Ok(Tree::none());
        };
        let Parts { exprs, deep } = parts;
        Ok(Tree::if_shallow(Expr::call(fun, exprs), 1 + deep))
    }
}

// Expressions with the greatest of their depths.
#[derive(Drop)]
struct Parts {
    exprs: Exprs,
    deep: u32,
}

impl Model for Parts {
    ghost use Rattle.std.specs.Prelude.{◌≡◌, ◌≤◌, List};
    ghost use Rattle.std.specs.Coded.{codes};
    ghost use Rattle.msl_fun.specs.declared.expr.Expr.{Expr};
    ghost use Rattle.msl_fun.specs.contracts.expr.Expr as e;
    ghost use Rattle.msl_fun.specs.Checks.{depth, greatest};
    ghost use Rattle.msl_base.specs.declared.limits.TheConstants.{MOST_DEPTH};

    ghost Value = { List Expr };

    ghost coded = { Prim.hlevel (codes, e.the_row.coded) };

    ghost view = { λ p. p.exprs };

    ghost invariant = { λ p. (p.deep ≡ greatest depth p.exprs) × (p.deep ≤ MOST_DEPTH) };
}

impl Parts {
    // All expressions, or none where one is too deep.
    fn of(alloc: Global, mut trees: Trees) -> Result<Option<Parts>, AllocError>
        ensures { IfOk result (λ es. es ≡ all_of trees) }
    {
        let mut exprs = Items::new(alloc);
        let mut deep = 0;
        while !trees.is_empty() {
            let tree = trees.remove(0);
            deep = tree.deep.max(deep);
            let Some(e) = tree.expr else {
                return Ok(None);
            };
            exprs.push(e)?;
        }
        Ok(Some(Parts { exprs, deep }))
    }
}

// The results of a function, or none where one is too deep.
pub fn results_of(alloc: Global, trees: Trees) -> Result<Option<Exprs>, AllocError>
    ensures all { IfOk result (λ es. es ≡ all_of trees) }
    ensures shallow { IfOk result (λ es. IfSome es (λ es. greatest depth es ≤ MOST_DEPTH)) }
{
    match Parts::of(alloc, trees)? {
        Some(Parts { exprs, .. }) => Ok(Some(exprs)),
        None => Ok(None),
    }
}
