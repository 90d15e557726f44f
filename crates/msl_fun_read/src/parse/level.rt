// The levels of operators, and the operators of each.

ghost use Rattle.std.specs.Prelude.{◌≡◌};
ghost use Rattle.msl_read.specs.Front.{form};
ghost use Rattle.msl_fun_read.specs.Grammar.{comparisons, operator_in, products, sums, tighter};

use msl_fun::BinOp;
use msl_read::Cursor;

/// How tightly an operator binds, the loosest last.
#[derive(Clone, Copy)]
pub enum Level {
    Unary,
    Product,
    Sum,
    Comparison,
    And,
    Or,
}

impl Level {
    // The level whose operators bind next more tightly.
    pub fn tighter(self) -> Level
        ensures { result ≡ tighter self }
    {
        match self {
            Level::Or => Level::And,
            Level::And => Level::Comparison,
            Level::Comparison => Level::Sum,
            Level::Sum => Level::Product,
            Level::Product | Level::Unary => Level::Unary,
        }
    }

    // The operator of a level that the first token is, where it is one.
    pub fn operator(self, c: &Cursor<'_>) -> Option<BinOp>
        ensures { result ≡ operator_in self (form c.now) }
    {
        match self {
            Level::Or if c.says("or") => Some(BinOp::Or),
            Level::And if c.says("and") => Some(BinOp::And),
            Level::Comparison => comparison(c),
            Level::Sum => sum(c),
            Level::Product => product(c),
            Level::Or | Level::And | Level::Unary => None,
        }
    }
}

fn product(c: &Cursor<'_>) -> Option<BinOp>
    ensures { result ≡ products (form c.now) }
{
    if c.says("*") {
        Some(BinOp::Mul)
    } else if c.says("/") {
        Some(BinOp::Div)
    } else if c.says("%") {
        Some(BinOp::Rem)
    } else {
        None
    }
}

fn sum(c: &Cursor<'_>) -> Option<BinOp>
    ensures { result ≡ sums (form c.now) }
{
    if c.says("+") {
        Some(BinOp::Add)
    } else if c.says("-") {
        Some(BinOp::Sub)
    } else {
        None
    }
}

fn comparison(c: &Cursor<'_>) -> Option<BinOp>
    ensures { result ≡ comparisons (form c.now) }
{
    if c.says("==") {
        Some(BinOp::Eq)
    } else if c.says("!=") {
        Some(BinOp::Ne)
    } else if c.says("<") {
        Some(BinOp::Lt)
    } else if c.says("<=") {
        Some(BinOp::Le)
    } else if c.says(">") {
        Some(BinOp::Gt)
    } else if c.says(">=") {
        Some(BinOp::Ge)
    } else {
        None
    }
}
