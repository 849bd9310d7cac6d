ghost use Rattle.declaration_typing.specs.Records.{RecordsAreWellFormed};
ghost use Rattle.declaration_typing.specs.Sorted.{SortedMethodsAscend};

/// The records of a project without faults are well formed.
pub fn records_are_well_formed()
    ensures { RecordsAreWellFormed }
{}

/// Sorted methods ascend, and each stands at the place of its name.
pub fn sorted_methods_ascend()
    ensures { SortedMethodsAscend }
{}
