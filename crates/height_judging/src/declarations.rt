ghost use Rattle.std.specs.Prelude.{◌≡◌, map};
ghost use Rattle.std.specs.Option.{option_map};
ghost use Rattle.slang_tree.specs.DeclTree.{decl_tree, method_decl_tree, return_tree};
ghost use Rattle.type_faults.specs.FirstFault.{with_first};
ghost use Rattle.height_rules.specs.Faults as rule;

use crate::constants::constant_height;
use crate::expressions::{claim_heights, expression_height};
use crate::statements::statement_heights;
use slang_tree::{Decl, MethodDecl, Return};
use type_faults::FirstFault;

/// Tells where a returned value is too high, if there is one.
fn return_height(told: &mut FirstFault, returned: &Option<Return>)
    ensures { told.new.found ≡ with_first told.old.found (rule.return_too_high (option_map return_tree returned.now)) }
{
    match returned {
        None => {}
        Some(returned) => expression_height(told, &returned.value),
    }
}

/// Tells what is too high in a method.
fn method_heights(told: &mut FirstFault, method: &MethodDecl)
    ensures { told.new.found ≡ with_first told.old.found (rule.method_too_high (method_decl_tree method.now)) }
{
    claim_heights(told, method.requires_.as_slice());
    claim_heights(told, method.ensures_.as_slice());
    statement_heights(method.body.as_slice(), told);
    return_height(told, &method.returned);
}

/// Tells what is too high in a declaration: its first fault of height is the first of those told.
pub fn declaration_heights(told: &mut FirstFault, decl: &Decl)
    ensures { told.new.found ≡ with_first told.old.found (rule.decl_too_high (decl_tree decl.now)) }
{
    match decl {
        Decl::Import { .. } => {}
        Decl::Global(global) => constant_height(told, &global.init),
        Decl::Record(_) => {}
        Decl::Method(method) => method_heights(told, method),
    }
}

/// Tells what is too high in the declarations of a file.
pub fn file_heights(told: &mut FirstFault, decls: &[Decl])
    ensures { told.new.found ≡ with_first told.old.found (rule.decls_too_high (map decl_tree decls.now)) }
{
    for decl in decls {
        declaration_heights(told, decl);
    }
}
