ghost use Rattle.machine_complete.specs.Laws.{TextHasOneTree, TextsAreRead};

/// What the grammar accounts for as a text, the machine reads with its tree.
pub fn texts_are_read()
    ensures { TextsAreRead }
{}

/// Bytes have one tree.
pub fn text_has_one_tree()
    ensures { TextHasOneTree }
{}
