//! The law of closing over the whole language.
ghost use Rattle.whole_closing.specs.Laws.{ClosedIsValid};

/// What is closed is valid.
pub fn closed_is_valid()
    ensures { ClosedIsValid }
{}
