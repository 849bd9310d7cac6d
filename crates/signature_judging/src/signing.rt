ghost use Rattle.std.specs.Prelude.{◌≡◌, IfOk, List, OnOk, map};
ghost use Rattle.std.specs.Option.{option_map};
ghost use Rattle.slang_tree.specs.DeclTree.{method_decl_tree};
ghost use Rattle.type_rules.specs.Meanings.{Declared};
ghost use Rattle.type_rules.specs.Meanings as meanings;
ghost use Rattle.type_rules.specs.Projects as rule;
ghost use Rattle.type_rules.specs.Statements.{texts};
ghost use Rattle.text_types.specs.TextType.{text_value};
ghost use Rattle.name_scopes.specs.Meanings.{signed};
ghost use Rattle.signature_judging.specs.Knows.{Knows, type_seen, types_seen};

use crate::NoMemory;
use crate::header::header_types;
use name_scopes::{NameScope, Signature};
use slang_tree::{MethodDecl, Name, Text};
use sqlite_items::Items;
use std::alloc::Global;
use text_types::{Found, TextType};
use type_faults::FirstFault;

/// The types of parts, where each has one.
fn all_typed(alloc: Global, founds: &[Found]) -> Result<Option<Items<TextType>>, NoMemory>
    ensures { IfOk result (λ types. option_map types_seen types ≡ meanings.all_typed (map type_seen founds.now)) }
{
    let mut types = Items::new(alloc);
    for found in founds {
        match found.ty {
            None => return Ok(None),
            Some(ty) => types.push(ty)?,
        }
    }
    Ok(Some(types))
}

/// A signature of these types, where all are there.
fn signature_with(params: Option<Items<TextType>>, ty: Option<TextType>) -> Option<Signature>
    ensures { option_map signed result ≡ rule.signature_with (option_map types_seen params) (option_map text_value ty) }
{
    match (params, ty) {
        (Some(params), Some(ty)) => Some(Signature { params, result: ty }),
        _ => None,
    }
}

/// The signature of a method, where what is written for its types has no fault.
pub fn signature(
    alloc: Global,
    outline: &mut NameScope,
    decl: &MethodDecl,
) -> Result<Option<Signature>, NoMemory>
    ensures signature { IfOk result (λ signature. (names : List Declared) → Knows outline.old.names names
        → option_map signed signature ≡ rule.signature_of names (method_decl_tree decl.now)) }
    ensures scope { OnOk result (outline.new ≡ outline.old) }
{
    let mut told = FirstFault::none();
    let (params, found) = header_types(alloc, outline, &mut told, decl)?;
    let types = all_typed(alloc, params.as_slice())?;
    Ok(signature_with(types, found.ty))
}

/// The names that a Modifies has.
pub fn modified_texts(alloc: Global, modifies: &[Name]) -> Result<Items<Text>, NoMemory>
    ensures { IfOk result (λ names. names ≡ texts modifies.now) }
{
    let mut names = Items::new(alloc);
    for name in modifies {
        let text = name.text.copy(alloc)?;
        names.push(text)?;
    }
    Ok(names)
}
