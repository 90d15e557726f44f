// A function with its first arguments while it is read.

ghost use Rattle.std.specs.Prelude.{◌≡◌, IfOk};
ghost use Rattle.msl_grammar.specs.Uses.{with_arg, use_spec};

use msl_base::NoMemory;
use msl_program::{Arg, Args, UseSpec};

/// A function that a step uses, with its first arguments so far, and where its name stands.
#[derive(Drop)]
pub struct Used {
    pub fun: u32,
    pub at: u32,
    pub args: Args,
}

impl Used {
    /// With one more argument.
    pub fn with(self, arg: Arg) -> Result<Used, NoMemory>
        ensures { IfOk result (λ u. u ≡ with_arg self arg) }
    {
        let Used { fun, at, mut args } = self;
        args.push(arg)?;
        Ok(Used { fun, at, args })
    }

    /// As a step has it.
    pub fn spec(self) -> UseSpec
        ensures { result ≡ use_spec self }
    {
        UseSpec {
            fun: self.fun,
            args: self.args,
        }
    }
}
