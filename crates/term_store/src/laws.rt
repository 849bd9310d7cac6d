//! Laws of stores.
ghost use Rattle.term_store.specs.Laws.{GrowthLaws, StoreLaws};

/// A number goes on standing for its tree as the store grows.
pub fn growth()
    ensures { GrowthLaws }
{}

/// Equal trees have one number, and the parts of what a store holds are held.
pub fn stores()
    ensures { StoreLaws }
{}
