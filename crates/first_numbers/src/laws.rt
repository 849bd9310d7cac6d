ghost use Rattle.first_numbers.specs.Laws.{NumbersAreFirsts};

/// Numbers first appear in their order exactly where each that appears is below the count of those before, or is the next.
pub fn numbers_are_firsts()
    ensures { NumbersAreFirsts }
{}
