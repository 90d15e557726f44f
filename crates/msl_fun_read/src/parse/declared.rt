use msl_base::Name;
use msl_fun::Funs;
use std::alloc::Global;

// What is declared before a function that is read.
#[derive(Clone, Copy)]
pub struct Declared<'a> {
    pub alloc: Global,
    pub funs: &'a Funs,
    // The names of declarations of other kinds.
    pub others: &'a [Name],
}
