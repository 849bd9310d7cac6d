ghost use Rattle.slang_grammar.specs.Laws.{FaultIsOne, TextHasNoFault};

/// Bytes have one first fault.
pub fn fault_is_one()
    ensures { FaultIsOne }
{}

/// A text has no fault.
pub fn text_has_no_fault()
    ensures { TextHasNoFault }
{}
