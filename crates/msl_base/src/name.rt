ghost use Rattle.std.specs.Prelude.{◌≡◌, IfOk, map, position};
ghost use Rattle.std.specs.Str.{bytes_eq};
ghost use Rattle.msl_base.specs.Names.{Text, place_among};

use std::alloc::{AllocError, AllocFailed, Global};
use std::marker::Model;

/// Memory ran out.
#[derive(Clone, Copy, Debug, PartialEq, Eq)]
pub struct NoMemory;

impl From<AllocError> for NoMemory {
    fn from(_: AllocError) -> Self {
        NoMemory
    }
}

impl<T: Drop> From<AllocFailed<T>> for NoMemory {
    fn from(_: AllocFailed<T>) -> Self {
        NoMemory
    }
}

/// A name or another word, seen as its text.
#[derive(Drop)]
pub struct Name {
    text: String,
}

impl Model for Name {
    ghost use Rattle.std.specs.Prelude.{ℕ, List};
    ghost use Rattle.std.specs.String.{string_bytes};

    ghost Value = { List ℕ };

    ghost view = { λ n. string_bytes n.text };
}

impl Name {
    /// The name with this text. It fails for want of memory alone.
    pub fn of(alloc: Global, text: &str) -> Result<Name, NoMemory>
        ensures { IfOk result (λ name. name ≡ text.now) }
    {
        let text = String::from_str(alloc, text)?;
        Ok(Name { text })
    }

    /// The text.
    pub fn as_str(&self) -> &str
        ensures { result.now ≡ self.now }
    {
        self.text.as_str()
    }
}

/// What has a name.
pub trait Named {
    ghost called: { Self → Text };

    /// The name.
    fn name(&self) -> &str
        ensures { result.now ≡ called self.now };
}

/// The place of the first of these that has this name.
pub fn position_named<T: Named>(items: &[T], name: &str) -> Option<usize>
    ensures { result ≡ place_among (map T.called items.now) name.now }
{
    first_named(items, name)
}

// The same by the items themselves.
fn first_named<T: Named>(items: &[T], name: &str) -> Option<usize>
    ensures { result ≡ position (λ x. bytes_eq name.now (T.called x)) items.now }
{
    items.iter().position(|item| name == item.name())
}

/// The place of the first of these names that is this one.
pub fn position_among(names: &[Name], name: &str) -> Option<usize>
    ensures { result ≡ place_among names.now name.now }
{
    names.iter().position(|other| name == other.as_str())
}
