ghost use Rattle.validity.specs.Laws.{BindLaws, NameLaws, ValidityLaws};

/// Validity is closed under the structural rules.
pub fn validity()
    ensures { ValidityLaws }
{}

/// Trees in place of names keep values and types.
pub fn trees_in_place_of_names<A, B, C>()
    ensures { BindLaws A B C }
{}

/// What is made of a tree depends on its own names alone.
pub fn names_of_trees<A, B>()
    ensures { NameLaws A B }
{}
