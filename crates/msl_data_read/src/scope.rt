// What a step of a data program can name.

ghost use Rattle.msl_grammar.specs.Uses.{ArePaired};

use crate::program::Program;
use msl_grammar::Known;
use std::alloc::Global;

// The definitions, and the lines before it.
#[derive(Clone, Copy)]
pub struct Scope<'a> {
    pub alloc: Global,
    pub known: &'a Known,
    pub program: &'a Program,
    pub ghost are_paired: { ArePaired program.now },
}
