ghost use Rattle.std.specs.Prelude.{◌≡◌, map, IfOk};
ghost use Rattle.std.specs.Option.{option_map};
ghost use Rattle.slang_tree.specs.TypeTree.{type_tree};
ghost use Rattle.slang_tree.specs.DeclTree.{const_tree, consts_of};
ghost use Rattle.type_rules.specs.Meanings.{Scope, meaning_of};
ghost use Rattle.type_rules.specs.Constants as rule;
ghost use Rattle.type_rules.specs.Expressions.{judged_listed, written_elements};
ghost use Rattle.text_types.specs.Found.{AreJudged, IsJudged};
ghost use Rattle.name_scopes.specs.Fits.{Fits};

use crate::NoMemory;
use crate::applied::applied;
use expression_forms::{elements, listed};
use name_scopes::NameScope;
use slang_tree::{Const, Name, Place, TypeName};
use sqlite_items::Items;
use std::alloc::Global;
use text_types::{Found, TextType};
use type_faults::FirstFault;
use type_names::element_of;

/// What is found at a constant.
#[cycle(judged)]
#[tactic(auto, using(slang_tree::proofs::Lines::const_lines, crate::proofs::Sizes::smaller_lines))]
pub fn judged_const(
    constant: &Const,
    alloc: Global,
    scope: &NameScope,
    told: &mut FirstFault,
) -> Result<Found, NoMemory>
    ensures { IfOk result (λ found. (at : Scope) → Fits scope.now at
        → IsJudged told.old.found told.new.found found (rule.judged_const at (const_tree constant.now))) }
{
    match constant {
        Const::Number(place, _) | Const::Minus(place, _, _) => Ok(Found::well(*place, TextType::Z)),
        Const::True(place) | Const::False(place) => Ok(Found::well(*place, TextType::B)),
        Const::Sequence(place, ty, parts) => {
            judged_sequence(parts.as_slice(), alloc, scope, told, *place, ty)
        }
        Const::Record(name, fields) => judged_record(fields.as_slice(), alloc, scope, told, name),
    }
}

/// A sequence of elements.
#[cycle(judged)]
fn judged_sequence(
    parts: &[Const],
    alloc: Global,
    scope: &NameScope,
    told: &mut FirstFault,
    place: Place,
    ty: &Option<TypeName>,
) -> Result<Found, NoMemory>
    ensures { IfOk result (λ found. (at : Scope) → Fits scope.now at → IsJudged told.old.found told.new.found found
        (judged_listed place (written_elements at (option_map type_tree ty.now)) (rule.judged_consts at (consts_of (map const_tree parts.now))))) }
{
    match ty {
        None => {
            let founds = judged_consts(parts, alloc, scope, told)?;
            Ok(elements(told, place, founds.as_slice()))
        }
        Some(ty) => {
            let front = element_of(scope, told, ty);
            let founds = judged_consts(parts, alloc, scope, told)?;
            Ok(listed(told, place, front, founds.as_slice()))
        }
    }
}

/// A name that is applied to fields.
#[cycle(judged)]
fn judged_record(
    fields: &[Const],
    alloc: Global,
    scope: &NameScope,
    told: &mut FirstFault,
    name: &Name,
) -> Result<Found, NoMemory>
    ensures { IfOk result (λ found. (at : Scope) → Fits scope.now at → IsJudged told.old.found told.new.found found
        (rule.judged_applied at name.now.place (meaning_of at name.now.text) (rule.judged_consts at (consts_of (map const_tree fields.now))))) }
{
    let founds = judged_consts(fields, alloc, scope, told)?;
    Ok(applied(scope, told, name, founds.as_slice()))
}

/// What is found at each of some constants.
#[cycle(judged)]
#[tactic(auto, using(crate::proofs::Sizes::size_lines))]
fn judged_consts(
    constants: &[Const],
    alloc: Global,
    scope: &NameScope,
    told: &mut FirstFault,
) -> Result<Items<Found>, NoMemory>
    ensures { IfOk result (λ founds. (at : Scope) → Fits scope.now at → AreJudged told.old.found told.new.found founds
        (rule.judged_consts at (consts_of (map const_tree constants.now)))) }
{
    let mut founds = Items::new(alloc);
    for constant in constants {
        let found = judged_const(constant, alloc, scope, told)?;
        founds.push(found)?;
    }
    Ok(founds)
}
