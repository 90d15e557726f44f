// What an expression begins with.

ghost use Rattle.std.specs.Prelude.{◌≡◌};
ghost use Rattle.msl_read.specs.Front.{form, form_behind};
ghost use Rattle.msl_fun_read.specs.Grammar.{first_in, other_first};

use msl_fun::BinOp;
use msl_lex::TokenKind;
use msl_read::Cursor;

/// What begins with a token: one of the forms of an expression, or none.
#[derive(Clone, Copy)]
pub enum First {
    /// `if`.
    If,
    /// `let`.
    Let,
    /// `loop`.
    Loop,
    /// `-`.
    Minus,
    /// `not`.
    Not,
    /// A number.
    Number,
    /// The name of a variable.
    Variable,
    /// The name of a function, with its arguments behind it.
    Call,
    /// `min` or `max`, of two.
    Pair(BinOp),
    /// `(`.
    Parenthesis,
    /// No expression.
    Nothing,
}

impl First {
    // What begins with the first token.
    pub fn of(c: &Cursor<'_>) -> First
        ensures { result ≡ first_in (form c.now) (form_behind c.now) }
    {
        if c.says("if") {
            First::If
        } else if c.says("let") {
            First::Let
        } else if c.says("loop") {
            First::Loop
        } else if c.says("-") {
            First::Minus
        } else if c.says("not") {
            First::Not
        } else if c.says("min") {
            First::Pair(BinOp::Min)
        } else if c.says("max") {
            First::Pair(BinOp::Max)
        } else if c.says("(") {
            First::Parenthesis
        } else {
            First::other(c)
        }
    }

    fn other(c: &Cursor<'_>) -> First
        ensures { result ≡ other_first (form c.now) (form_behind c.now) }
    {
        match c.name() {
            Some(_) if c.behind().says("(") => First::Call,
            Some(_) => First::Variable,
            None => match c.kind() {
                TokenKind::Number => First::Number,
                _ => First::Nothing,
            },
        }
    }
}
