/// Why an evaluation has no result.
#[derive(Clone, Copy)]
pub enum EvalFault {
    /// A number is outside 64 signed bits.
    Overflow,
    /// A number is divided by 0.
    DivZero,
    /// More than 10,000,000 nodes of expressions were begun.
    Steps,
}
