ghost use Rattle.machine_sound.specs.Laws.{TextsAreInGrammar};

/// What the machine reads of the tokens of a text, the grammar accounts for with its tree.
pub fn texts_are_in_grammar()
    ensures { TextsAreInGrammar }
{}
