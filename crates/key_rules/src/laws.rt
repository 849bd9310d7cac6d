ghost use Rattle.key_rules.specs.Examples.{KeyExamples};
ghost use Rattle.key_rules.specs.Laws.{KeysAreRead, KeysOfWellFormedLegs, KeysTellLegsApart, OnlyKeysAreRead};

/// The key of a leg is read as that leg.
pub fn keys_are_read()
    ensures { KeysAreRead }
{}

/// Bytes are read as a leg only where they are its key.
pub fn only_keys_are_read()
    ensures { OnlyKeysAreRead }
{}

/// No two legs have one key.
pub fn keys_tell_legs_apart()
    ensures { KeysTellLegsApart }
{}

/// Bytes are the key of a well-formed leg exactly where they are read as that leg.
pub fn keys_of_well_formed_legs()
    ensures { KeysOfWellFormedLegs }
{}

/// The keys of small legs.
pub fn keys_on_examples()
    ensures { KeyExamples }
{}
