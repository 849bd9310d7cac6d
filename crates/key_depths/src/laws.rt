ghost use Rattle.key_depths.specs.Laws.{KeysAreReadWithin, KeysOfWellFormedLegsWithin, WellFormedLegsAreWithin};

/// The key of a leg is read by readers that go as deep as the leg is.
pub fn keys_are_read_within()
    ensures { KeysAreReadWithin }
{}

/// No well-formed leg is deeper than the limit.
pub fn well_formed_legs_are_within()
    ensures { WellFormedLegsAreWithin }
{}

/// Bytes are the key of a well-formed leg exactly where readers that go no deeper than the limit read them as it.
pub fn keys_of_well_formed_legs_within()
    ensures { KeysOfWellFormedLegsWithin }
{}
