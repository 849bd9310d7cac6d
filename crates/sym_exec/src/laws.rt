//! Laws of places in legs.
ghost use Rattle.sym_exec.specs.Laws.{ExecGrowthLaws};

/// What is to come stays the same as the store grows.
pub fn growth()
    ensures { ExecGrowthLaws }
{}
