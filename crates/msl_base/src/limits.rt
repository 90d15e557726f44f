//! The limits of the language, of its scripts and of what they run on. Code and definitions cite them from here.

/// Bytes of a script.
pub const MOST_SCRIPT_BYTES: usize = 1_048_576;

/// Bytes of a word of a script, and so of a name.
pub const LONGEST_NAME: usize = 64;

/// The value of a number in a script, which has no sign.
pub const GREATEST_NUMBER: u64 = 9_223_372_036_854_775_807;

/// Functions of a script.
pub const MOST_FUNS: usize = 256;

/// Definitions of a script, of each other kind: data programs, filters, divisions and searches.
pub const MOST_DEFINITIONS: usize = 64;

/// Parameters of a function.
pub const MOST_PARAMS: usize = 16;

/// Results of a function, and so numbers of the records that a stage makes.
pub const MOST_RESULTS: usize = 16;

/// Names in scope at once, in a function.
pub const MOST_NAMES: usize = 32;

/// Rules `expr` and `unary` of the grammar that are open at one token.
pub const MOST_OPENED: u32 = 256;

/// Levels of an expression: a number or a name is one, anything else one more than its deepest part.
pub const MOST_DEPTH: u32 = 100;

/// Functions of a chain in which each calls the next.
pub const MOST_RANK: u32 = 8;

/// Nodes of expressions that one evaluation begins.
pub const MOST_BEGUN: u64 = 10_000_000;

/// Lines of a data program.
pub const MOST_DATA_LINES: usize = 64;

/// Blocks of an array, and of a matrix.
pub const MOST_BLOCKS: u32 = 1_024;

/// The modulus of an operator.
pub const GREATEST_MODULUS: i64 = 1_000_000_000_000_000_000;

/// Stages of a script that are no farm and no pipe.
pub const MOST_PRIMITIVES: u32 = 64;

/// Filters among these.
pub const MOST_FILTERS: u32 = 4;

/// Farms and pipes one inside the other.
pub const MOST_NESTED: u32 = 4;

/// Workers of a farm, and members of a team.
pub const MOST_MEMBERS: u32 = 64;

/// State numbers of a filter.
pub const MOST_STATE: usize = 8;

/// Records that a filter gives in one step.
pub const MOST_OUTPUTS: u32 = 64;

/// The fewest parts of a division.
pub const LEAST_PARTS: u32 = 2;

/// Parts of a division.
pub const MOST_PARTS: u32 = 16;

/// Levels of a division that are worked on at once.
pub const MOST_CUTOFF: u32 = 64;

/// Levels of a division or a search, and so steps of a path.
pub const MOST_LEVELS: usize = 64;

/// Children of a node of a search, or parts of a division: each step of a path is below.
pub const MOST_CHILDREN: u8 = 64;

/// Bits of a path's steps in its code.
pub const MOST_PATH_BITS: u32 = 56;

/// Bits of one step in a code.
pub const MOST_STEP_BITS: u32 = 6;

/// Numbers of a `Small`.
pub const MOST_SMALL: usize = 16;

/// Lines of an input.
pub const MOST_LINES: u32 = 4_294_967_295;

/// Bytes of a line of an input, before its LF.
pub const MOST_LINE_BYTES: usize = 33_554_432;

/// Numbers of a record.
pub const MOST_NUMBERS: usize = 1_048_576;
