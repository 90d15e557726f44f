use crate::Path;

/// Why a stream ends before its end. A line's number and a stage's number count from 1; a path leads from the
/// root of a division or a search to the node that faults.
#[derive(Clone, Copy)]
pub enum Fault {
    /// The line of this number isn't the text of a record.
    BadRecord(u32),
    /// The line of this number has more bytes than a line may have.
    LongLine(u32),
    /// The line of this number has more numbers than a record may have.
    WideRecord(u32),
    /// A line begins behind the greatest number of lines.
    ManyLines,
    /// The stage, how many numbers the record has, and how many the stage takes.
    Shape(u32, u64, u64),
    /// At this stage a number is outside 64 signed bits.
    Overflow(u32),
    /// At this stage a number is divided by 0.
    DivZero(u32),
    /// At this stage an evaluation begins more than 10,000,000 nodes.
    Steps(u32),
    /// At this stage a count isn't from 0 to 64.
    Count(u32),
    /// At this stage a map of places isn't one to one.
    NotPermutation(u32),
    /// At this stage blocks that are to change places differ in size.
    Ragged(u32),
    /// At this stage a division or a search needs more than 64 levels; the path leads to the node that does.
    Depth(u32, Path),
    /// At this stage a node's bound is below its parent's, or its value below its bound.
    BoundBroken(u32, Path),
    /// At this stage a solution has the value 9223372036854775807, which none may have.
    Value(u32, Path),
}

/// How a stream ends.
#[derive(Clone, Copy)]
pub enum End {
    /// It is whole.
    Done,
    /// A record or a line has no result.
    Fault(Fault),
    /// The rest can't be read.
    Read,
    /// The rest can't be written.
    Write,
    /// Memory ran out.
    Memory,
    /// It was given up from outside.
    Stopped,
}
