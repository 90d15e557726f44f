/// Who works on the records of a farm, and by what a data program is run.
#[derive_where(Clone, Copy)]
pub enum How<'r, R> {
    /// All is done in turn: a farm is one worker, the members of a data program work one after the other, and divisions
    /// and searches are plain recursions.
    InTurn,
    /// A farm's workers take its records in turn, a data program is run by as many threads as it has members, where that
    /// pays, and the members of a division or a search work on its tree in turns.
    Beside(&'r R),
}
