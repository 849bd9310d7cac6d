//! What sums, cuts and contradictions mean, for all whole numbers. The functions have no code: each one's contract is a law.

ghost use Rattle.std.specs.Prelude.{◌≡◌, ℕ, ℤ, pos, ◌+ℤ◌, ◌*ℤ◌, ◌≤ℤ◌, ◌<ℤ◌, ◌↔◌, List, IsTrue};
ghost use Rattle.lin_rows.specs.declared.row.RowPart.{RowPart};
ghost use Rattle.lin_rows.specs.Cut.{cut, divides, divisor, tightened};
ghost use Rattle.lin_rows.specs.Inequality.{Inequality, IsCanonical, Holds, is_contradiction};
ghost use Rattle.lin_rows.specs.Sum.{coefficient, combined};
ghost use Rattle.std.specs.Int.{◌∣◌};

/// A sum of rows is the one canonical row whose coefficients and bound are the sums of theirs, and it is true where they are.
pub fn sums_add_up()
    ensures coefficients { (a b : Inequality) (p q : ℤ) (v : ℕ) →
        coefficient (combined a p b q).parts v ≡ p *ℤ coefficient a.parts v +ℤ q *ℤ coefficient b.parts v }
    ensures canonical { (a b : Inequality) (p q : ℤ) → IsCanonical (combined a p b q).parts }
    ensures unique { (s t : List RowPart) → IsCanonical s → IsCanonical t →
        ((v : ℕ) → coefficient s v ≡ coefficient t v) → s ≡ t }
    ensures true_of_the_same { (x : ℕ → ℤ) (a b : Inequality) (p q : ℤ) → pos 0 ≤ℤ p → pos 0 ≤ℤ q →
        Holds x a → Holds x b → Holds x (combined a p b q) }
{}

/// A row and its cut are true of the same whole numbers, and so are a row and the tightened one. The divisor of a row is the
/// greatest number that divides its coefficients.
pub fn cuts_keep_the_numbers()
    ensures cut { (x : ℕ → ℤ) (row : Inequality) (g : ℤ) → pos 0 <ℤ g → IsTrue (divides g row.parts) →
        Holds x row ↔ Holds x (cut row g) }
    ensures tightened { (x : ℕ → ℤ) (row : Inequality) → IsCanonical row.parts → Holds x row ↔ Holds x (tightened row) }
    ensures divides { (parts : List RowPart) → IsTrue (divides (pos (divisor parts)) parts) }
    ensures greatest { (d : ℕ) (parts : List RowPart) → IsTrue (divides (pos d) parts) → d ∣ divisor parts }
{}

/// A contradiction is true of no numbers.
pub fn no_numbers_satisfy_a_contradiction()
    ensures { (x : ℕ → ℤ) (row : Inequality) → IsTrue (is_contradiction row) → Holds x row → ⊥ }
{}
