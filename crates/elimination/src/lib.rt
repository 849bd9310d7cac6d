//! The elimination of variables from rows of linear arithmetic: a definition over lists of rows, in
//! `specs/Elimination.antt`, and the laws that it ends, in one way, and what its parts are.
//!
//! The functions have no code: each one's contract is a law, so that the check of this crate proves it.
#![tactic(auto)]

ghost use Rattle.std.specs.Prelude.{◌≡◌, ◌≢◌, ℕ, suc, ◌<◌, ◌≤◌, ◌⊎◌, List, Some, None, IsTrue};
ghost use Rattle.std.specs.List.{AllByRecursion};
ghost use Rattle.lin_rows.specs.Inequality.{Inequality, IsCanonical, HaveNoSolution};
ghost use Rattle.elimination.specs.Elimination.{Ending, Closed, Going, Ended, started, occurs, cost, chosen, next_rows, turns, variable_count, elimination};

/// Every elimination has ended after one turn more than there are variables, and it has one ending, whatever number of turns
/// is looked at.
pub fn every_elimination_ends()
    ensures ends { (rows : List Inequality) →
        turns (suc (variable_count (started rows))) (started rows) ≡ Ended (elimination rows) }
    ensures once { (rows : List Inequality) (n : ℕ) (e : Ending) → turns n (started rows) ≡ Ended e → e ≡ elimination rows }
{}

/// The variable that is chosen occurs, and no other that occurs costs less, or as much and is less. None is chosen only where
/// none occurs.
pub fn the_cheapest_variable_goes_first()
    ensures occurs { (rows : List Inequality) (v : ℕ) → chosen rows ≡ Some v → IsTrue (occurs v rows) }
    ensures first { (rows : List Inequality) (v w : ℕ) → chosen rows ≡ Some v → IsTrue (occurs w rows) →
        (cost rows v < cost rows w) ⊎ ((cost rows v ≡ cost rows w) × (v ≤ w)) }
    ensures none { (rows : List Inequality) (w : ℕ) → chosen rows ≡ None → IsTrue (occurs w rows) → ⊥ }
{}

/// The next rows have no variable but those of the rows before, and not the one that was eliminated.
pub fn a_turn_takes_its_variable_away()
    ensures { (v : ℕ) (rows next : List Inequality) → next_rows v rows ≡ Going next →
        (w : ℕ) → IsTrue (occurs w next) → IsTrue (occurs w rows) × (w ≢ v) }
{}

/// Rows whose elimination is Closed have no whole-number solution.
pub fn closed_rows_have_no_solution()
    ensures { (rows : List Inequality) → AllByRecursion (λ row. IsCanonical row.parts) rows →
        elimination rows ≡ Closed → HaveNoSolution rows }
{}
