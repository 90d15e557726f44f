use sqlite_items::{Boxed, Items};

/// An operator of two numbers. Truth is 1 and 0, and any number but 0 counts as true.
#[derive(Clone, Copy)]
pub enum BinOp {
    Add,
    Sub,
    Mul,
    /// The quotient, truncated toward zero.
    Div,
    /// The remainder, with the sign of the first number.
    Rem,
    Eq,
    Ne,
    Lt,
    Le,
    Gt,
    Ge,
    /// The second operand is evaluated only where the first is true.
    And,
    /// The second operand is evaluated only where the first is false.
    Or,
    Min,
    Max,
}

/// An expression, whose parts stand in the order of its text.
#[derive(Drop)]
pub enum Expr {
    /// A literal, not below 0.
    Lit(i64),
    /// A variable, by its place among those in scope, from 0: the parameters, then the others in the order in
    /// which they came into scope.
    Slot(u32),
    /// The number with the other sign.
    Neg(Boxed<Expr>),
    /// 1 where the number is 0, else 0.
    Not(Boxed<Expr>),
    /// An operator and its operands.
    Bin(BinOp, Boxed<Expr>, Boxed<Expr>),
    /// The condition, and a branch for true and for false.
    If(Boxed<Expr>, Boxed<Expr>, Boxed<Expr>),
    /// The value of one more variable, and the body.
    Let(Boxed<Expr>, Boxed<Expr>),
    /// How many turns, the first value, and the next value in a turn. A turn has two more variables: its
    /// number from 0, and the value so far.
    Loop(Boxed<Expr>, Boxed<Expr>, Boxed<Expr>),
    /// The first result of an earlier function, by its place among the functions, at these arguments.
    Call(u32, Exprs),
}

/// A list of expressions.
pub type Exprs = Items<Expr>;
