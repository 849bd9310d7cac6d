ghost use Rattle.std.specs.Prelude.{◌≡◌, IfOk, List, OnOk, map};
ghost use Rattle.slang_tree.specs.DeclTree.{method_decl_tree, param_tree};
ghost use Rattle.type_rules.specs.Meanings.{Declared};
ghost use Rattle.signature_judging.specs.Knows.{Knows};
ghost use Rattle.header_making.specs.Headers.{IsHeader, IsHeaderOf};

use crate::NoMemory;
use crate::parameters::made_params;
use lk_claims::Ty;
use lk_programs::FieldTy;
use name_scopes::NameScope;
use owned_results::both;
use signature_judging::header_types;
use slang_tree::{MethodDecl, Param};
use sqlite_items::Items;
use std::alloc::Global;
use text_types::Found;
use type_faults::FirstFault;
use typed_names::ty_of;

/// The parameters of a method, and the type of its result.
#[derive(Drop)]
pub struct Header {
    pub params: Items<FieldTy>,
    pub result: Ty,
}

/// The header of a method, the types of whose parts were found.
fn header_of(
    alloc: Global,
    params: &[Param],
    founds: &[Found],
    found: Found,
) -> Result<Header, NoMemory>
    ensures { IfOk result (λ header. IsHeaderOf header (map param_tree params.now) founds.now found) }
{
    let params = made_params(alloc, params, founds);
    let (params, result) = both(params, ty_of(alloc, found.known()))?;
    Ok(Header { params, result })
}

/// The parameters of a method, and the type of its result.
pub fn made_header(
    alloc: Global,
    outline: &mut NameScope,
    decl: &MethodDecl,
) -> Result<Header, NoMemory>
    ensures header { IfOk result (λ header. (names : List Declared) → Knows outline.old.names names → IsHeader header names (method_decl_tree decl.now)) }
    ensures scope { OnOk result (outline.new ≡ outline.old) }
{
    let mut told = FirstFault::none();
    let (founds, found) = header_types(alloc, outline, &mut told, decl)?;
    header_of(alloc, decl.params.as_slice(), founds.as_slice(), found)
}
