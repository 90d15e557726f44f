// A function while it is read.

ghost use Rattle.std.specs.Prelude.{◌≤◌, length};
ghost use Rattle.msl_base.specs.declared.limits.TheConstants.{MOST_NAMES};

use msl_fun::Names;
use msl_read::Cursor;

// What is read of a function so far: the tokens still to come, the variables in scope, and all the names that `let`
// and `loop` bound.
#[derive(Drop)]
pub struct Draft<'a> {
    pub cursor: Cursor<'a>,
    pub scope: Names,
    pub names: Names,
    ghost few: { length scope ≤ MOST_NAMES },
}

// The names that a `let` or a `loop` binds.
#[derive(Clone, Copy)]
pub enum Bound<'n> {
    One(&'n str),
    Two(&'n str, &'n str),
}
