ghost use Rattle.printed_pieces.specs.Laws.{PrintedFilesAreLaidOut};

/// The pieces that are printed of a file whose names and numbers are sound may stand beside each other as they do.
pub fn printed_files_are_laid_out()
    ensures { PrintedFilesAreLaidOut }
{}
