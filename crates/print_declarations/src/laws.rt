ghost use Rattle.print_declarations.specs.Laws.{FilesReadBack};

/// The tokens that are printed of a file are in the grammar, with the same tree without places.
pub fn files_read_back()
    ensures { FilesReadBack }
{}
