use msl_base::{ListOf, NoMemory};
use thiserror::Error;

/// What a token is.
#[derive(Clone, Copy, Debug, PartialEq, Eq)]
pub enum TokenKind {
    /// A letter or `_`, then letters, digits and `_`; at most 64 bytes.
    Word,
    /// Decimal digits, with a value of at most 9223372036854775807.
    Number,
    /// An operator, a bracket, `,`, `;` or `=`.
    Sign,
    /// The end of the text.
    Close,
}

/// A token of a text: what it is, and the places in bytes where it begins and where it is over.
#[derive(Clone, Copy)]
pub struct Token {
    pub kind: TokenKind,
    pub from: u32,
    pub to: u32,
}

/// A list of tokens.
pub type Tokens = ListOf<Token>;

/// Why a text has no tokens. The number is the place, in bytes, of the first fault.
#[derive(Debug, Drop, PartialEq, Eq, Error)]
pub enum LexFault {
    /// A byte that begins no token.
    #[error("a byte that begins no token, at {0}")]
    Byte(u32),
    /// A word of more than 64 bytes.
    #[error("a word of more than 64 bytes, at {0}")]
    LongName(u32),
    /// A number above 9223372036854775807.
    #[error("a number above 9223372036854775807, at {0}")]
    Number(u32),
    /// Memory ran out.
    #[error("out of memory")]
    NoMemory,
}

impl From<NoMemory> for LexFault {
    ghost use Rattle.std.specs.Prelude.{◌≡◌};
    ghost use Rattle.msl_lex.specs.declared.token.LexFault.TheVariants as fault;

    ghost from_gives = { λ _ e. e ≡ fault.NoMemory };

    fn from(_: NoMemory) -> Self {
        LexFault::NoMemory
    }
}
