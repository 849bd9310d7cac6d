ghost use Rattle.record_checks.specs.Laws.{RecordsAreTested};

/// Records have a table, by which those of some types are numbered up to the last, exactly where they are well formed and these types
/// bring them in order.
pub fn records_are_tested()
    ensures { RecordsAreTested }
{}
