ghost use Rattle.std.specs.Prelude.{ℤ};
ghost use Rattle.slang_values.specs.Laws.{IsDivision, IsRange, EqualityIsExact, IsSequence, HaveDefaults, ValuesHaveTheirTypes, ClosedTreesIgnoreBounds};
ghost use Rattle.slang_values.specs.Value.{AreWellFormed, Records, ValueType, Values};

/// `/` and `%` on all whole numbers.
pub fn division()
    ensures { (a d : ℤ) → IsDivision a d }
{}

/// Quantifiers speak of each number of their range.
pub fn ranges()
    ensures { (low high : ℤ) → IsRange low high }
{}

/// `==` says exactly which values are equal.
pub fn equality()
    ensures { EqualityIsExact }
{}

/// Reads, updates and appends, in range and out of range.
pub fn sequences()
    ensures { (records : Records) (t : ValueType) (vs : Values) → IsSequence records t vs }
{}

/// Well-formed records do not hold themselves, and have defaults.
pub fn records()
    ensures { (records : Records) → AreWellFormed records → HaveDefaults records }
{}

/// The value of a well-typed expression is one of its type.
pub fn values_have_their_types<A>()
    ensures { ValuesHaveTheirTypes A }
{}

/// The value of an expression depends on its loose bound variables alone.
pub fn closed_trees_ignore_bounds<A>()
    ensures { ClosedTreesIgnoreBounds A }
{}
