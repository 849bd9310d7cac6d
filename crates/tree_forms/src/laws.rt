ghost use Rattle.tree_forms.specs.Laws.{TreesAreOrdered, FormsAreForms, CanonicalTreesKeepValues};

/// The order of trees is total, and tells all trees apart.
pub fn trees_are_ordered()
    ensures { TreesAreOrdered }
{}

/// A form is in order, and has the value of its tree.
pub fn forms_are_forms()
    ensures { FormsAreForms }
{}

/// A canonical tree has the value of the tree.
pub fn canonical_trees_keep_values()
    ensures { CanonicalTreesKeepValues }
{}
