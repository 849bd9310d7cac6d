ghost use Rattle.light_files.specs.Laws.{FilesAreLightest};

/// What is printed lightly of the tree of a text nests no deeper than a text may.
pub fn files_are_lightest()
    ensures { FilesAreLightest }
{}
