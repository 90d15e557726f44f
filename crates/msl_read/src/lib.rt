//! Reading tokens from left to right, in any grammar: the tokens still to be read, the tests that are due at one, and
//! the refusals.
//!
//! - A `Cursor` is seen as what its tokens say. Each of its calls says exactly what the first token is (`says`, `name`,
//!   `word`, `number`, `place`), or takes it (`advance`, `take`, `expect`). It takes no memory, and its last token is
//!   the end of the text.
//! - `ReadFault` is the first test that fails, with its kind and the place that it names, or want of memory. It is the
//!   one fault of the readers of functions and of scripts. A text without tokens is refused where its first fault
//!   stands.
//! - A grammar is a machine of states (`Reading`): what is still to come says which tests are due at a token, and what
//!   follows.
//! - `Parts` says what reading a part means, whatever follows it, with two laws for all readers: one part behind
//!   another, and a part that is refused.
//!
//! No grammar stands here; that of functions is in `msl_fun_read`, that of scripts in `msl_grammar`.
#![tactic(auto)]

mod cursor;
mod fault;

pub use cursor::Cursor;
pub use fault::ReadFault;
