ghost use Rattle.sound_trees.specs.Laws.{ReadTreesAreSound};

/// Where the names among the tokens of a text are read as names, so are those of its tree.
pub fn read_trees_are_sound()
    ensures { ReadTreesAreSound }
{}
