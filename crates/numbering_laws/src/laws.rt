ghost use Rattle.numbering_laws.specs.Laws.{NumberingKeepsPassing};

/// A leg passes over its own names where it passes over the numbers of its variables and records.
pub fn numbering_keeps_passing()
    ensures { NumberingKeepsPassing }
{}
