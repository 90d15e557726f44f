/// Why a script is refused, in the order in which the tests that are due at a token are made.
/// The last three are refusals of its bytes, and come before all others.
#[derive(Clone, Copy, Debug, PartialEq, Eq)]
pub enum Kind {
    /// The token can't go on the grammar.
    Expected,
    /// The version of the language isn't one that is read.
    Version,
    /// A filter stands inside a farm.
    InFarm,
    /// One thing more than a limit allows.
    Many,
    /// A limit on depth is passed.
    Deep,
    /// A name that is already defined in its space.
    Twice,
    /// A name that isn't defined before.
    Unknown,
    /// A name of another kind than is needed.
    WrongKind,
    /// A function whose parameters or results don't fit, or a call with a wrong number of arguments.
    Width,
    /// A number out of its range.
    Range,
    /// A byte that begins no token.
    Byte,
    /// A word of more than 64 bytes.
    LongName,
    /// A number above 9223372036854775807.
    Number,
}
