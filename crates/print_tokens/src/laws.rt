ghost use Rattle.print_tokens.specs.Laws.{PrintedBytesReadBack};

/// The bytes that are printed of a tree that is, but for its places, that of some bytes, are read with that tree, but
/// for its places.
pub fn printed_bytes_read_back()
    ensures { PrintedBytesReadBack }
{}
