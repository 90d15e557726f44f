use crate::group::Group;

/// A group in a world.
#[derive(Drop)]
pub struct Place {
    pub group: Group,
    /// Where it was lent to, by whom.
    pub loan: Option<Loan>,
}

/// A path that was lent to a group: by a node of another group, among whose loans it has this slot, and whether it is
/// lent still.
#[derive(Clone, Copy)]
pub struct Loan {
    pub group: usize,
    pub node: usize,
    pub slot: usize,
    pub lent: bool,
}
