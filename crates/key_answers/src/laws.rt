ghost use Rattle.key_answers.specs.Laws.{KeysAreAnswered, KeysHaveOneAnswer, VerdictsAreThoseOfKeys};

/// A key has one answer at most.
pub fn keys_have_one_answer()
    ensures { KeysHaveOneAnswer }
{}

/// What reads each key answers it.
pub fn keys_are_answered()
    ensures { KeysAreAnswered }
{}

/// What answers keys rightly gives the verdict on a method by the keys of its legs.
pub fn verdicts_are_those_of_keys()
    ensures { VerdictsAreThoseOfKeys }
{}
