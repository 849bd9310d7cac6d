//! The laws of branches.
ghost use Rattle.case_branches.specs.Laws.{BranchLaws};

/// A branch has the cases of the branches that it is taken apart into.
pub fn branches()
    ensures { BranchLaws }
{}
