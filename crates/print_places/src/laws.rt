ghost use Rattle.print_places.specs.Laws.{FilesArePrintedWithoutPlaces, PrintedFilesReadBack};

/// What is printed of a file does not depend on the places of its tree.
pub fn files_are_printed_without_places()
    ensures { FilesArePrintedWithoutPlaces }
{}

/// The tokens that are printed of a tree that is, but for its places, one that the grammar reads, are in the grammar with that tree.
pub fn printed_files_read_back()
    ensures { PrintedFilesReadBack }
{}
