ghost use Rattle.std.specs.Prelude.{◌≡◌, [], ◌∷◌, ◌++◌, length, map, OnOk, IfOk};
ghost use Rattle.std.specs.Option.{option_map};
ghost use Rattle.lk_claims.specs.Claim.{value_type};
ghost use Rattle.lk_programs.specs.Expr.{typed_expr};
ghost use Rattle.lk_programs.specs.Program.{method_tree};
ghost use Rattle.program_trees.specs.Programs.{ProgramTree, renamed_expr, renamed_method};
ghost use Rattle.program_trees.specs.Variables.{Variable, global};
ghost use Rattle.run_rules.specs.Runs.{method_at};
ghost use Rattle.leg_rules.specs.Checks.{argument_demands};
ghost use Rattle.leg_rules.specs.LegNames.{own};
ghost use Rattle.leg_rules.specs.Legs.{call_items, demanded, parameter_items, result_names, target_items};
ghost use Rattle.leg_items.specs.Names.{kind_of, leg_name};
ghost use Rattle.leg_items.specs.Drafts.{items_of};
ghost use Rattle.call_items.specs.Frames.{is_given};

use crate::NoMemory;
use crate::entries::{add_entries, number};
use leg_items::{
    Draft, DraftItem, Frame, MethodVariable, Name, Scope, add_assumed, add_demanded, add_fresh,
    add_required, add_variable, claim_of,
};
use lk_claims::Ty;
use lk_programs::{Expr, Method, NodeNo};
use sqlite_items::Items;
use std::alloc::Global;

/// A call on a leg: its node, the number of the method that is called, and how the variables of both methods are numbered.
#[derive(Clone, Copy)]
pub struct Call {
    pub node: NodeNo,
    pub method: u32,
    pub caller: Scope,
    pub callee: Scope,
}

impl Call {
    fn variable(self, variable: MethodVariable) -> Name
        ensures { result ≡ Name.OfCall self.node self.method variable }
    {
        Name::OfCall(self.node, self.method, variable)
    }
}

/// Adds the checks of expressions, one after the other.
fn add_all_demanded(
    alloc: Global,
    scope: Scope,
    exprs: &[Expr],
    out: &mut Items<DraftItem>,
) -> Result<(), NoMemory>
    ensures { OnOk result (items_of out.new ≡ items_of out.old
        ++ demanded (argument_demands (map (λ expr. renamed_expr (kind_of scope) (typed_expr expr)) exprs.now))) }
{
    for expr in exprs {
        add_demanded(alloc, scope, expr, out)?;
    }
    Ok(())
}

/// Adds that a parameter has the value of its argument.
fn add_parameter(
    alloc: Global,
    call: Call,
    place: u32,
    argument: &Expr,
    out: &mut Items<DraftItem>,
) -> Result<(), NoMemory>
    ensures { OnOk result (items_of out.new ≡ items_of out.old
        ++ parameter_items call.node.0 call.method place (renamed_expr (kind_of call.caller) (typed_expr argument.now) ∷ [])) }
{
    let claim = claim_of(alloc, argument)?;
    out.push(DraftItem {
        draft: Draft::Set(
            call.variable(MethodVariable::Local(place)),
            Frame::Own(call.caller),
            claim,
        ),
        node: call.node,
    })?;
    Ok(())
}

/// Adds that each parameter has the value of its argument.
fn add_parameters(
    alloc: Global,
    call: Call,
    arguments: &[Expr],
    out: &mut Items<DraftItem>,
) -> Result<(), NoMemory>
    ensures { OnOk result (items_of out.new ≡ items_of out.old
        ++ parameter_items call.node.0 call.method 0 (map (λ expr. renamed_expr (kind_of call.caller) (typed_expr expr)) arguments.now)) }
{
    for place in 0..arguments.len() {
        add_parameter(alloc, call, number(place)?, &arguments[place], out)?;
    }
    Ok(())
}

/// Whether a method of that type has a result.
#[tactic(auto, using(lk_claims::proofs::Types::type_lines))]
fn has_result(ty: &Ty) -> bool
    ensures { result ≡ is_given (value_type ty.now) }
{
    match ty {
        Ty::Unit => false,
        Ty::Z => true,
        Ty::B => true,
        Ty::Seq(_) => true,
        Ty::Rec(_) => true,
    }
}

/// What the called method changes, and then its result.
fn changed(alloc: Global, call: Call, callee: &Method) -> Result<Items<Name>, NoMemory>
    ensures { IfOk result (λ names. map leg_name names ≡ map (λ g. own (global g)) callee.now.modifies
        ++ result_names call.node.0 call.method (value_type callee.now.result)) }
{
    let mut names = Items::new(alloc);
    for global in callee.modifies.as_slice() {
        names.push(Name::Own(MethodVariable::Global(*global)))?;
    }
    if has_result(&callee.result) {
        names.push(call.variable(MethodVariable::Result))?;
    }
    Ok(names)
}

/// Adds that the target has the result.
fn add_target(call: Call, target: Option<u32>, out: &mut Items<DraftItem>) -> Result<(), NoMemory>
    ensures { OnOk result (items_of out.new ≡ items_of out.old ++ target_items call.node.0 call.method (option_map (kind_of call.caller) target)) }
{
    match target {
        None => Ok(()),
        Some(target) => add_variable(
            call.node,
            Frame::Own(call.caller).name(target),
            call.variable(MethodVariable::Result),
            out,
        ),
    }
}

/// Adds the items of a call of the method, whose result goes to the target where there is one. `name` is the node of the called
/// name.
pub fn add_call(
    alloc: Global,
    call: Call,
    callee: &Method,
    target: Option<u32>,
    name: NodeNo,
    arguments: &[Expr],
    out: &mut Items<DraftItem>,
) -> Result<(), NoMemory>
    ensures { OnOk result ((program : ProgramTree Variable) → length program.globals ≡ call.callee.globals →
        method_at program call.method ≡ renamed_method (kind_of call.callee) (method_tree callee.now) →
        items_of out.new ≡ items_of out.old ++ call_items program call.node.0 (option_map (kind_of call.caller) target) name.0 call.method
        (map (λ expr. renamed_expr (kind_of call.caller) (typed_expr expr)) arguments.now)) }
{
    let frame = Frame::Call(call.node, call.method, call.callee);
    add_all_demanded(alloc, call.caller, arguments, out)?;
    add_parameters(alloc, call, arguments, out)?;
    add_required(alloc, frame, name, callee.requires_.as_slice(), out)?;
    add_entries(frame, call.node, callee.ensures_.as_slice(), out)?;
    add_fresh(call.node, changed(alloc, call, callee)?, out)?;
    add_assumed(alloc, frame, callee.ensures_.as_slice(), out)?;
    add_target(call, target, out)
}
