ghost use Rattle.term_tests.specs.Values.{DivisionsOfEachSign, ReadsAndUpdates, Ranges};

/// Quotients and remainders of each sign, and by zero.
pub fn divisions_of_each_sign()
    ensures { DivisionsOfEachSign }
{}

/// Reads and updates in range and out of range.
pub fn reads_and_updates()
    ensures { ReadsAndUpdates }
{}

/// Quantifiers over ranges.
pub fn ranges()
    ensures { Ranges }
{}
