//! Laws of the definitions. Each function is empty, and its contract is the law.

ghost use Rattle.std.specs.Prelude.{◌≡◌, ℕ, Result};
ghost use Rattle.std.specs.Global.{Vec};
ghost use Rattle.msl_side.specs.Places.{Led, AreAlike};

/// Where what is given at each place is a function of the place, two answers are the same.
pub fn one_answer<X, E>()
    ensures { (f : ℕ → Result X E) (n : ℕ) (a b : Result (Vec X) E) → Led (λ i r. r ≡ f i) n a → Led (λ i r. r ≡ f i) n b → AreAlike a b }
{}
