/// How many farms and pipes are open around a stage, and whether one of them is a farm.
#[derive(Clone, Copy)]
pub struct Nest {
    pub opened: u32,
    pub in_farm: bool,
}

/// The primitive stages so far, and the filters among them.
#[derive(Clone, Copy)]
pub struct Counts {
    pub primitives: u32,
    pub filters: u32,
}
