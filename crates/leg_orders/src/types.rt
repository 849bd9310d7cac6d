ghost use Rattle.std.specs.Prelude.{◌≡◌, unwrap_or, option_copied};
ghost use Rattle.slang_values.specs.Value.{named_record as named_record_of, unit_type};
ghost use Rattle.program_trees.specs.Variables.{global, local, result as result_variable, variable_types};
ghost use Rattle.lk_claims.specs.Claim.{value_type};
ghost use Rattle.leg_rules.specs.Numbering.{leg_name_type};
ghost use Rattle.leg_items.specs.Names.{leg_name, variable_data};
ghost use Rattle.leg_orders.specs.Places.{method_of, program_of, told_type};

use leg_items::{MethodVariable, Name};
use lk_claims::Ty;
use lk_programs::Typed;

/// The record that a type names, itself or as the elements of sequences.
#[tactic(auto, using(lk_claims::proofs::Types::type_lines))]
pub(crate) fn named_record(ty: &Ty) -> Option<u32>
    ensures { result ≡ named_record_of (value_type ty.now) }
{
    match ty {
        Ty::Unit => None,
        Ty::Z => None,
        Ty::B => None,
        Ty::Seq(element) => named_record(element.get()),
        Ty::Rec(number) => Some(*number),
    }
}

#[tactic(auto, using(crate::proofs::FoundTypes::found_lines))]
fn local_type(typed: &Typed, number: u32, place: u32) -> Option<&Ty>
    ensures { told_type (option_copied result) ≡ unwrap_or (variable_types (program_of typed.now) (method_of typed.now number) (local place)) unit_type }
{
    match typed.methods.get(number as usize) {
        Some(method) => method.locals.get(place as usize),
        None => None,
    }
}

#[tactic(auto, using(crate::proofs::FoundTypes::found_lines))]
fn result_type(typed: &Typed, number: u32) -> Option<&Ty>
    ensures { told_type (option_copied result) ≡ unwrap_or (variable_types (program_of typed.now) (method_of typed.now number) result_variable) unit_type }
{
    match typed.methods.get(number as usize) {
        Some(method) => Some(&method.result),
        None => None,
    }
}

#[tactic(auto, using(crate::proofs::FoundTypes::found_lines))]
fn global_type(typed: &Typed, number: u32, place: u32) -> Option<&Ty>
    ensures { told_type (option_copied result) ≡ unwrap_or (variable_types (program_of typed.now) (method_of typed.now number) (global place)) unit_type }
{
    match typed.globals.get(place as usize) {
        Some(global) => Some(&global.ty),
        None => None,
    }
}

/// The type of a variable of the method of that number.
fn variable_type(typed: &Typed, number: u32, variable: MethodVariable) -> Option<&Ty>
    ensures { told_type (option_copied result) ≡ unwrap_or (variable_types (program_of typed.now) (method_of typed.now number) (variable_data variable)) unit_type }
{
    match variable {
        MethodVariable::Local(local) => local_type(typed, number, local),
        MethodVariable::Global(global) => global_type(typed, number, global),
        MethodVariable::Entry(global) => global_type(typed, number, global),
        MethodVariable::Result => result_type(typed, number),
    }
}

/// The type of a variable on a leg of the method of that number. A method without a result has none.
pub fn type_of(typed: &Typed, method: u32, name: Name) -> Option<&Ty>
    ensures { told_type (option_copied result) ≡ leg_name_type (program_of typed.now) (method_of typed.now method) (leg_name name) }
{
    match name {
        Name::Own(variable) => variable_type(typed, method, variable),
        Name::OfCall(_, called, variable) => variable_type(typed, called, variable),
    }
}
