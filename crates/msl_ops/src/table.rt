ghost use Rattle.std.specs.Prelude.{◌≡◌, Contains};
ghost use Rattle.msl_ops.specs.declared.op.OpKind.{OpKind};
ghost use Rattle.msl_ops.specs.Table.{rows, name_of, kind_named};

use crate::OpKind;
use crate::rows::{kinds, name, rows};

/// A table of operators, in the order of its rows.
#[derive(Clone, Copy)]
pub struct OpTable<const N: usize> {
    pub kinds: [OpKind; N],
}

/// The table of all operators, each of which has a row. No memory is taken.
pub fn op_table() -> OpTable<9>
    ensures rows { result.kinds ≡ rows }
    ensures every { (kind : OpKind) → Contains result.kinds kind }
{
    OpTable { kinds: kinds() }
}

// The operators, in the order of their rows.
fn kinds() -> [OpKind; 9]
    ensures { result ≡ rows }
{
    rows!(kinds!())
}

impl<const N: usize> OpTable<N> {
    /// The operator whose row has this name, and None exactly where no row has it. No memory is taken.
    pub fn find(&self, name: &str) -> Option<OpKind>
        ensures { result ≡ kind_named self.now.kinds name.now }
    {
        self.kinds
            .iter()
            .copied()
            .find(|kind| name_of(*kind) == name)
    }

    /// The name of an operator's row. No memory is taken.
    pub fn name(&self, kind: OpKind) -> &str
        requires { Contains self.now.kinds kind }
        ensures { result.now ≡ name_of kind }
    {
        name_of(kind)
    }
}

fn name_of(kind: OpKind) -> &'static str
    ensures { result.now ≡ name_of kind }
{
    rows!(name!(kind))
}
