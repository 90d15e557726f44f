//! The tokens of a script, the words that are names, and why a script is refused.
//!
//! - `lex` gives exactly the tokens of a text of at most 1,048,576 bytes (`tokens`), or its first fault with its place
//!   (`refusal`), by `Layout`, which knows no order of reading. Want of memory may come at any text.
//! - `is_reserved` is exactly the list of words that the grammar quotes (`Names`).
//! - `Kind` has the kinds of refusals, in the order in which the tests at a token are made.
//! - `laws`: each text reads in exactly one way, as tokens or as its first fault (`text_is_laid_out`); the tokens stand
//!   in order within the text, and each is spelt by its kind within the limits (`Places`); a text that is put together
//!   from tokens and blanks, where no two tokens touch that would be others then, has just these tokens
//!   (`laid_text_is_read`, by `Printing`). Worked examples.
//!
//! What tokens mean together isn't said here: that is the grammars' part.
#![tactic(auto)]

mod kind;
pub mod laws;
mod lexer;
mod reserved;
mod token;

pub use kind::Kind;
pub use lexer::lex;
pub use reserved::is_reserved;
pub use token::{LexFault, Token, TokenKind, Tokens};
