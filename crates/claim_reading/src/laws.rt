ghost use Rattle.claim_reading.specs.Laws.{ReadingLaws};

/// Reading a claim is reading its parts, and its term is its own node over theirs.
pub fn claims_are_read_by_parts()
    ensures { ReadingLaws }
{}
