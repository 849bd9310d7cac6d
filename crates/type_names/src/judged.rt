ghost use Rattle.std.specs.Prelude.{◌≡◌};
ghost use Rattle.std.specs.Option.{option_map};
ghost use Rattle.slang_values.specs.Value.{record_type};
ghost use Rattle.slang_tree.specs.TypeTree.{type_place, type_tree};
ghost use Rattle.type_rules.specs.TypeNames.{judged_element, judged_name, judged_result, judged_type};
ghost use Rattle.text_types.specs.TextType.{element_value, text_value};
ghost use Rattle.text_types.specs.Found.{IsJudged};
ghost use Rattle.name_scopes.specs.Meanings.{declared_in};
ghost use Rattle.type_names.specs.Typed.{IsTyped};

use name_scopes::{Meaning, NameScope};
use slang_tree::{Fault, Name, Place, TypeName};
use text_types::{ElementType, Found, TextType};
use type_faults::FirstFault;

/// Where a type stands.
#[tactic(auto, using(slang_tree::proofs::Lines::type_lines))]
fn place_of(ty: &TypeName) -> Place
    ensures { result ≡ type_place (type_tree ty.now) }
{
    match ty {
        TypeName::Z(place) | TypeName::B(place) | TypeName::Unit(place) | TypeName::Seq(place, _) =>
            *place,
        TypeName::Named(name) => name.place,
    }
}

/// The record that a name stands for.
fn record_of(scope: &NameScope, told: &mut FirstFault, name: &Name) -> Option<u32>
    ensures { IsTyped told.old.found told.new.found (option_map record_type result) (judged_name (declared_in scope.now.names) name.now) }
{
    match scope.meaning(name.text.as_str()) {
        None => {
            told.tell(Fault {
                code: 6,
                place: name.place,
            });
            None
        }
        Some(Meaning::Record(number)) => Some(*number),
        Some(_) => {
            told.tell(Fault {
                code: 8,
                place: name.place,
            });
            None
        }
    }
}

/// The type of the elements of a sequence: a number, a truth value or a record.
#[tactic(auto, using(slang_tree::proofs::Lines::type_lines))]
pub fn element_of(scope: &NameScope, told: &mut FirstFault, ty: &TypeName) -> Option<ElementType>
    ensures { IsTyped told.old.found told.new.found (option_map element_value result) (judged_element (declared_in scope.now.names) (type_tree ty.now)) }
{
    match ty {
        TypeName::Z(_) => Some(ElementType::Z),
        TypeName::B(_) => Some(ElementType::B),
        TypeName::Unit(place) => {
            told.tell(Fault {
                code: 8,
                place: *place,
            });
            None
        }
        TypeName::Seq(place, element) => {
            told.tell(Fault {
                code: 8,
                place: *place,
            });
            element_of(scope, told, element.get());
            None
        }
        TypeName::Named(name) => match record_of(scope, told, name) {
            None => None,
            Some(number) => Some(ElementType::Record(number)),
        },
    }
}

/// The type of a variable or a field: any but `Unit`.
#[tactic(auto, using(slang_tree::proofs::Lines::type_lines))]
fn type_of(scope: &NameScope, told: &mut FirstFault, ty: &TypeName) -> Option<TextType>
    ensures { IsTyped told.old.found told.new.found (option_map text_value result) (judged_type (declared_in scope.now.names) (type_tree ty.now)) }
{
    match ty {
        TypeName::Z(_) => Some(TextType::Z),
        TypeName::B(_) => Some(TextType::B),
        TypeName::Unit(place) => {
            told.tell(Fault {
                code: 8,
                place: *place,
            });
            None
        }
        TypeName::Seq(_, element) => match element_of(scope, told, element.get()) {
            None => None,
            Some(element) => Some(TextType::Sequence(element)),
        },
        TypeName::Named(name) => match record_of(scope, told, name) {
            None => None,
            Some(number) => Some(TextType::Record(number)),
        },
    }
}

/// The type of a variable or a field, with its place.
pub fn variable_type(scope: &NameScope, told: &mut FirstFault, ty: &TypeName) -> Found
    ensures { IsJudged told.old.found told.new.found result (judged_type (declared_in scope.now.names) (type_tree ty.now)) }
{
    let place = place_of(ty);
    let ty = type_of(scope, told, ty);
    Found { place, ty }
}

/// The type of the result of a method, with its place.
#[tactic(auto, using(slang_tree::proofs::Lines::type_lines))]
pub fn result_type(scope: &NameScope, told: &mut FirstFault, ty: &TypeName) -> Found
    ensures { IsJudged told.old.found told.new.found result (judged_result (declared_in scope.now.names) (type_tree ty.now)) }
{
    match ty {
        TypeName::Unit(place) => Found::well(*place, TextType::Unit),
        _ => variable_type(scope, told, ty),
    }
}
