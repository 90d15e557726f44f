use msl_base::Name;
use msl_ops::Op;
use sqlite_items::Items;

/// An argument that is given with a function.
#[derive(Clone, Copy)]
pub enum Arg {
    /// The number that an earlier line of the program is, by its place among the lines.
    Number(u32),
    /// This number.
    Lit(i64),
}

/// A list of arguments.
pub type Args = Items<Arg>;

/// A function, by its place among the functions, with its first arguments.
#[derive(Drop)]
pub struct UseSpec {
    pub fun: u32,
    pub args: Args,
}

/// How a line of a data program gets its value. Numbers that aren't said to be something else are places of
/// earlier lines. Arrays lie in 1 to 1,024 blocks.
#[derive(Drop)]
pub enum DataStep {
    /// The whole record, in so many blocks.
    Array(u32),
    /// So many numbers of the record from a place on, each at most 1,048,576.
    ArrayAt {
        blocks: u32,
        at: u32,
        len: u32,
    },
    /// A matrix of the record's numbers from a place on, which is at most 1,048,576, row by row, in a grid of blocks.
    /// It has 1 to 1,048,576 numbers in 1 to 1,024 blocks.
    Matrix {
        rows: u32,
        cols: u32,
        grid_rows: u32,
        grid_cols: u32,
        at: u32,
    },
    /// The function at each number.
    Map(UseSpec, u32),
    /// The function at each place, or row and column, and its number.
    MapIndex(UseSpec, u32),
    /// The function at each two numbers of one place.
    Zip(UseSpec, u32, u32),
    /// The function at each place, or row and column, and its two numbers.
    ZipIndex(UseSpec, u32, u32),
    /// All numbers combined.
    Fold(Op, u32),
    /// The numbers up to each place combined.
    Scan(Op, u32),
    /// The function at the value so far and each number in turn, from a first value on.
    Foldl(UseSpec, Arg, u32),
    /// Block j moves to the place that the function gives for j.
    PermutePartition(UseSpec, u32),
    /// The number at place i moves to the place that the function gives for i.
    Permute(UseSpec, u32),
    /// Each block becomes the block of this number.
    BroadcastPartition(u32, u32),
    /// The blocks of block row s move as many places to the right, round, as the function gives for s.
    RotateRows(UseSpec, u32),
    /// The blocks of block column t move as many places down, round, as the function gives for t.
    RotateCols(UseSpec, u32),
    /// Rows become columns.
    Transpose(u32),
}

/// A line of a data program.
#[derive(Drop)]
pub struct DataLine {
    pub name: Name,
    pub step: DataStep,
}

/// The lines of a data program.
pub type DataLines = Items<DataLine>;

/// A data program: its lines in order, and the place of the one that it gives.
#[derive(Drop)]
pub struct DataProg {
    pub name: Name,
    pub lines: DataLines,
    pub give: u32,
}

/// Data programs in the order of their definition.
pub type DataProgs = Items<DataProg>;
