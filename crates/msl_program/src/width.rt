ghost use Rattle.std.specs.Prelude.{◌≡◌, ◌≤◌};
ghost use Rattle.msl_base.specs.declared.limits.TheConstants.{MOST_PARAMS};
ghost use Rattle.msl_program.specs.Widths.{allows};

use msl_base::limits::MOST_PARAMS;

/// How many parameters or results a function may have.
#[derive(Clone, Copy)]
pub enum Width {
    /// Any number of them.
    Any,
    /// So many.
    Exactly(usize),
    /// So many or more.
    AtLeast(usize),
    /// So many or fewer.
    AtMost(usize),
    /// So many times as many are at most 16.
    Shared(u32),
}

impl Width {
    /// Whether there may be so many.
    pub fn allows(self, n: usize) -> bool
        requires { n ≤ MOST_PARAMS }
        ensures { result ≡ allows self n }
    {
        match self {
            Width::Any => true,
            Width::Exactly(w) => n == w,
            Width::AtLeast(w) => w <= n,
            Width::AtMost(w) => n <= w,
            Width::Shared(parts) => parts as usize * n <= MOST_PARAMS,
        }
    }
}
