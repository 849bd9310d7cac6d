ghost use Rattle.leg_typing.specs.Laws.{NumberingKeepsTyping};

/// A leg that is well typed over its own names is well typed over numbers.
pub fn numbering_keeps_typing()
    ensures { NumberingKeepsTyping }
{}
