ghost use Rattle.std.specs.Prelude.{◌≡◌, ◌<◌, ◌≤◌, ◌++◌, [], ◌∷◌, length, Some, slice_get, OnOk, OnErr};
ghost use Rattle.msl_base.specs.Names.{place_among};
ghost use Rattle.msl_fun.specs.Checks.{AreFuns, MayFollow, names_of, rank_of};

use crate::Exprs;
use crate::rank::greatest_called;
use msl_base::{Name, Named, NoMemory, position_named};
use sqlite_items::Items;
use std::alloc::Global;
use std::marker::Model;

/// A list of names.
pub type Names = Items<Name>;

/// A function.
#[derive(Drop)]
pub struct Fun {
    /// What it is called.
    pub name: Name,
    /// Its parameters, 1 to 16.
    pub params: Names,
    /// An expression for each result, 1 to 16.
    pub results: Exprs,
    /// The names that `let` and `loop` bind in the results, in the order of the text.
    pub names: Names,
}

impl Named for Fun {
    ghost called = { λ f. f.name };

    fn name(&self) -> &str {
        self.name.as_str()
    }
}

/// Functions in the order in which they were defined, each of which meets the rules on a function over those
/// before it.
#[derive(Drop)]
pub struct Funs {
    items: Items<Fun>,
    // The rank of each function.
    ranks: Vec<u32>,
}

impl Model for Funs {
    ghost use Rattle.std.specs.Prelude.{◌≡◌, List, []};
    ghost use Rattle.std.specs.Coded.{codes};
    ghost use Rattle.msl_fun.specs.declared.funs.Fun.{Fun};
    ghost use Rattle.msl_fun.specs.Checks.{AreFuns, ranks_from};
    ghost use Rattle.msl_fun.specs.contracts.expr.Expr as e;

    ghost Value = { List Fun };

    ghost coded = { Prim.hlevel (codes, e.the_row.coded) };

    ghost view = { λ f. f.items };

    ghost invariant = { λ f. record { rules : AreFuns f.items; ranks : f.ranks.items ≡ ranks_from [] f.items } };
}

impl Funs {
    /// No function. Takes no memory.
    pub fn new(alloc: Global) -> Funs
        ensures { result ≡ [] }
    {
        Funs {
            items: Items::new(alloc),
            ranks: Vec::new(alloc),
        }
    }

    /// Appends a function that meets the rules over those that stand here, or leaves the list where memory runs out.
    pub fn add(&mut self, f: Fun) -> Result<(), NoMemory>
        requires { MayFollow self.old f }
        ensures ok { OnOk result (self.new ≡ self.old ++ f ∷ []) }
        ensures err { OnErr result (self.new ≡ self.old) }
    {
        let rank = greatest_called(self.ranks.as_slice(), f.results.as_slice()) + 1;
        // With room for the rank, only the push of the function can fail.
        self.ranks.reserve(1)?;
        self.items.push(f)?;
        self.ranks.push(rank).unwrap();
        Ok(())
    }

    /// The functions, in order.
    pub fn as_slice(&self) -> &[Fun]
        ensures list { result.now ≡ self.now }
        ensures funs { AreFuns self.now }
    {
        self.items.as_slice()
    }

    /// The place of the function of a name.
    pub fn find(&self, name: &str) -> Option<u32>
        ensures { result ≡ place_among (names_of self.now) name.now }
    {
        let at = position_named(self.as_slice(), name)?;
        Some(at as u32)
    }

    /// The rank of the function at a place: 1, or one more than the greatest of those that it calls; at most 8.
    pub fn rank(&self, at: u32) -> u32
        requires { at < length self.now }
        ensures { result ≡ rank_of self.now at }
    {
        self.ranks[at as usize]
    }
}
