//! Laws and worked examples of the functions of a script. Each function here is empty, and its contract is the law.
//!
//! - `text_laws`: the text of a function that meets the rules, whose name isn't declared for another thing and whose
//!   expressions open few, is read as the function, whatever is behind it (`text_is_read_back`); each of its tokens can
//!   be spelt and stays what it is beside the next (`text_is_laid_out`); some texts (`texts`).
//! - `laws`: a function that is added later changes no meaning (`added_later`); at most 10,000,000 nodes may be begun
//!   (`limits`). Worked examples of meanings, costs, faults, rules and names, and of texts that are read or refused
//!   (`readings`).
//! - `list_laws`: worked examples of the operations on whole lists.
//!
//! They stand apart since they need the reader and the printer of functions at once. The definitions compute in the
//! examples: no code runs.
#![tactic(auto)]

pub mod laws;
pub mod list_laws;
pub mod text_laws;
