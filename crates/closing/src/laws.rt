ghost use Rattle.closing.specs.Laws.{RowsAreRows};

/// The rows of a case are complete, canonical, and narrow where its literals are.
pub fn rows_are_rows()
    ensures { RowsAreRows }
{}
