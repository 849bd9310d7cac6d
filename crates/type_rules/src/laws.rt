ghost use Rattle.std.specs.Prelude.{List};
ghost use Rattle.slang_tree.specs.DeclTree.{DeclTree, MethodDeclTree};
ghost use Rattle.type_rules.specs.Laws.{CountsMethods, FirstFaultIsFirst};

/// The first fault of several is the one of least place, and of those the one of least code.
pub fn first_fault_is_first()
    ensures { FirstFaultIsFirst }
{}

/// A project may have 10,000 methods.
pub fn methods_are_counted()
    ensures { (before : List DeclTree) (decl : MethodDeclTree) → CountsMethods before decl }
{}
