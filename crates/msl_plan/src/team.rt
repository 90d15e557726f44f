use msl_base::ListOf;

/// The members that work on a stage: so many, 1 to 64, from the first of them on. Stages are numbered from 1 in the
/// order of the text, without farms and pipes; the members of a group are numbered from 0.
#[derive(Clone, Copy, Debug, PartialEq, Eq)]
pub struct Team {
    pub stage: u32,
    pub first: u32,
    pub count: u32,
}

/// Teams in the order of their members.
pub type Teams = ListOf<Team>;
