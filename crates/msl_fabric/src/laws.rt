//! Laws of the definitions, and worked examples. Each function is empty, and its contract is the law or the examples.

ghost use Rattle.std.specs.Prelude.{◌≡◌, ◌<◌, ℕ, pos, [], ◌∷◌};
ghost use Rattle.msl_fabric.specs.Grids.{Grid, grid, IsWhole, IsExchange, row, column, with_box};

/// An exchange of what an exchange gave gives what was there.
pub fn exchange_undoes_itself()
    ensures { (out got : Grid) → IsExchange out got → IsExchange got out }
{}

/// Of the same boxes two exchanges give the same.
pub fn one_answer()
    ensures { (out got other : Grid) → IsWhole got → IsWhole other → IsExchange out got → IsExchange out other → got ≡ other }
{}

/// What a member got is what each has for it, in the order of the members.
pub fn rows_are_columns()
    ensures row { (out got : Grid) (i : ℕ) → i < out.n → IsExchange out got → row got i ≡ column out i }
    ensures column { (out got : Grid) (j : ℕ) → j < out.n → IsExchange out got → column got j ≡ row out j }
{}

/// Boxes that are put and exchanged.
pub fn exchanges()
    ensures exchange { IsExchange (grid 2 ((pos 1 ∷ []) ∷ (pos 2 ∷ []) ∷ (pos 3 ∷ []) ∷ [] ∷ [])) (grid 2 ((pos 1 ∷ []) ∷ (pos 3 ∷ []) ∷ (pos 2 ∷ []) ∷ [] ∷ [])) }
    ensures put { with_box (grid 2 ([] ∷ [] ∷ [] ∷ [] ∷ [])) 1 0 (pos 3 ∷ []) ≡ grid 2 ([] ∷ [] ∷ (pos 3 ∷ []) ∷ [] ∷ []) }
    ensures row { row (grid 2 ([] ∷ [] ∷ (pos 3 ∷ []) ∷ [] ∷ [])) 1 ≡ (pos 3 ∷ []) ∷ [] ∷ [] }
    ensures column { column (grid 2 ([] ∷ [] ∷ (pos 3 ∷ []) ∷ [] ∷ [])) 0 ≡ [] ∷ (pos 3 ∷ []) ∷ [] }
{}
