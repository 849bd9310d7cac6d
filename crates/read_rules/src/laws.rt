//! The law of reduced trees.
ghost use Rattle.read_rules.specs.Laws.{ReducingKeepsValues};

/// A tree whose fields and sizes are reduced has the type and the value that it had.
pub fn reducing_keeps_values()
    ensures { ReducingKeepsValues }
{}
