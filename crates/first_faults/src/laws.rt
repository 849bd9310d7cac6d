ghost use Rattle.first_faults.specs.Laws.{FrontsGoOn, StopsAtFault, TextHasNoStop};

/// The machine reads a front of the tokens of a text exactly where some text goes on from it.
pub fn fronts_go_on()
    ensures { FrontsGoOn }
{}

/// Where the machine stops is the first fault of the tokens.
pub fn stops_at_fault()
    ensures { StopsAtFault }
{}

/// Where the machine does not stop, the tokens are a text.
pub fn text_has_no_stop()
    ensures { TextHasNoStop }
{}
