ghost use Rattle.std.specs.Prelude.{◌≡◌, IfOk, List, length, map};
ghost use Rattle.slang_tree.specs.DeclTree.{param_tree};
ghost use Rattle.lk_claims.specs.Claim.{value_type};
ghost use Rattle.type_rules.specs.Judged.{Judged};
ghost use Rattle.text_types.specs.TextType.{text_value};
ghost use Rattle.text_types.specs.Found.{bare, seen};
ghost use Rattle.header_making.specs.Headers.{HasParams, known_at};

use crate::NoMemory;
use lk_programs::FieldTy;
use owned_results::both;
use slang_tree::Param;
use sqlite_items::Items;
use std::alloc::Global;
use text_types::{Found, TextType};
use typed_names::ty_of;

/// The type of the part at this place, which is `Unit` where it has none.
fn type_at(founds: &[Found], at: usize) -> TextType
    ensures { text_value result ≡ known_at founds.now at }
{
    match founds.get(at) {
        None => TextType::Unit,
        Some(found) => found.known(),
    }
}

/// A parameter of this type.
fn made_param(alloc: Global, ty: TextType, param: &Param) -> Result<FieldTy, NoMemory>
    ensures name { IfOk result (λ made. made.name ≡ param.now.name.text) }
    ensures ty { IfOk result (λ made. value_type made.ty ≡ text_value ty) }
{
    let (name, ty) = both(param.name.text.copy(alloc), ty_of(alloc, ty))?;
    Ok(FieldTy { name, ty })
}

/// The parameters of a method, the types of which were found.
pub fn made_params(
    alloc: Global,
    params: &[Param],
    founds: &[Found],
) -> Result<Items<FieldTy>, NoMemory>
    ensures { IfOk result (λ made. (parts : List Judged) → map seen founds.now ≡ map bare parts → length parts ≡ length params.now
        → HasParams made (map param_tree params.now) parts) }
{
    let mut made = Items::new(alloc);
    for at in 0..params.len() {
        let ty = type_at(founds, at);
        made.push(made_param(alloc, ty, &params[at])?)?;
    }
    Ok(made)
}
