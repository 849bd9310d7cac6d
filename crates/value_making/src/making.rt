ghost use Rattle.std.specs.Prelude.{◌≡◌, IfOk, OnOk, map};
ghost use Rattle.std.specs.Option.{option_map};
ghost use Rattle.slang_values.specs.Tree.{record_of};
ghost use Rattle.slang_tree.specs.TypeTree.{type_tree};
ghost use Rattle.slang_tree.specs.ExprTree as text;
ghost use Rattle.slang_tree.specs.ExprTree.{expr_tree, exprs_of};
ghost use Rattle.program_trees.specs.Programs as tree;
ghost use Rattle.type_rules.specs.Meanings.{Scope};
ghost use Rattle.type_rules.specs.Expressions.{a_value};
ghost use Rattle.typed_texts.specs.Numbered.{headed};
ghost use Rattle.typed_texts.specs.Values as typed;
ghost use Rattle.lk_programs.specs.Expr.{typed_expr, typed_exprs};
ghost use Rattle.name_scopes.specs.Fits.{Fits};
ghost use Rattle.typed_names.specs.Fields.{HasFields};
ghost use Rattle.typed_names.specs.Nodes.{IsMade};
ghost use Rattle.value_making.specs.Values.{numbered, value_in, values_in};

use crate::NoMemory;
use crate::leaves::{literal, named, truth};
use crate::reading::read_at;
use expression_forms::Context;
use lk_programs::{Expr as Value, RecordTy};
use name_scopes::NameScope;
use owned_results::{all_three, both};
use slang_tree::{Expr, Name, Operator, Place, TypeName};
use slang_values::Unary;
use sqlite_items::Items;
use std::alloc::Global;
use typed_names::{Nodes, Numbering};
use typed_parts::{Head, elements_ty, head_of, selected};

/// The expression of the program that an expression of the text stands for.
#[cycle(value)]
#[tactic(auto, using(slang_tree::proofs::Lines::expr_lines, expression_judging::proofs::Sizes::smaller_lines))]
pub fn value_of(
    expr: &Expr,
    alloc: Global,
    scope: &mut NameScope,
    nodes: &mut Nodes,
    records: &[RecordTy],
    numbers: Numbering,
) -> Result<Value, NoMemory>
    ensures made { IfOk result (λ v. (at : Scope) → Fits scope.old at → HasFields records.now at
        → IsMade nodes.old nodes.new (typed_expr v) (value_in numbers at (expr_tree expr.now))) }
    ensures scope { OnOk result (scope.new ≡ scope.old) }
{
    match expr {
        Expr::Number(place, z) => literal(nodes, *place, *z),
        Expr::True(place) => truth(nodes, *place, true),
        Expr::False(place) => truth(nodes, *place, false),
        Expr::Name(name) => named(scope, nodes, numbers, name),
        Expr::Minus(place, operand) => {
            prefixed(
                operand.get(),
                alloc,
                scope,
                nodes,
                records,
                numbers,
                *place,
                Unary::Neg,
            )
        }
        Expr::Not(place, operand) => {
            prefixed(
                operand.get(),
                alloc,
                scope,
                nodes,
                records,
                numbers,
                *place,
                Unary::Not,
            )
        }
        Expr::Binary(place, operator, left, right) => {
            connected(
                left.get(),
                right.get(),
                alloc,
                scope,
                nodes,
                records,
                numbers,
                *place,
                *operator,
            )
        }
        Expr::Apply(place, head, arguments) => {
            applied(
                head.get(),
                arguments.as_slice(),
                alloc,
                scope,
                nodes,
                records,
                numbers,
                *place,
            )
        }
        Expr::Update(place, head, index, element) => {
            updated(
                head.get(),
                index.get(),
                element.get(),
                alloc,
                scope,
                nodes,
                records,
                numbers,
                *place,
            )
        }
        Expr::Field(place, head, name) => {
            field(
                head.get(),
                alloc,
                scope,
                nodes,
                records,
                numbers,
                *place,
                name,
            )
        }
        Expr::Sequence(place, ty, elements) => {
            sequence(
                elements.as_slice(),
                alloc,
                scope,
                nodes,
                records,
                numbers,
                *place,
                ty,
            )
        }
        Expr::Res(place, _) => literal(nodes, *place, 0),
        Expr::In(place, _) => literal(nodes, *place, 0),
        Expr::Old(place, _) => literal(nodes, *place, 0),
        Expr::Quantified(place, _, _, _, _, _) => literal(nodes, *place, 0),
        Expr::QuantifiedIndices(place, _, _, _, _) => literal(nodes, *place, 0),
    }
}

/// An operator in front of its operand, or what is selected from it.
#[cycle(value)]
fn prefixed(
    operand: &Expr,
    alloc: Global,
    scope: &mut NameScope,
    nodes: &mut Nodes,
    records: &[RecordTy],
    numbers: Numbering,
    place: Place,
    op: Unary,
) -> Result<Value, NoMemory>
    ensures made { IfOk result (λ v. (at : Scope) → Fits scope.old at → HasFields records.now at
        → IsMade nodes.old nodes.new (typed_expr v) (numbered numbers (headed place (λ node a. tree.unary node op a) (typed.value_of_tree at (expr_tree operand.now))))) }
    ensures scope { OnOk result (scope.new ≡ scope.old) }
{
    let node = nodes.add(place)?;
    let operand = value_of(operand, alloc, scope, nodes, records, numbers)?;
    Value::unary(alloc, node, op, operand)
}

/// A field of a record, or the size of a sequence.
#[cycle(value)]
fn field(
    head: &Expr,
    alloc: Global,
    scope: &mut NameScope,
    nodes: &mut Nodes,
    records: &[RecordTy],
    numbers: Numbering,
    place: Place,
    name: &Name,
) -> Result<Value, NoMemory>
    ensures made { IfOk result (λ v. (at : Scope) → Fits scope.old at → HasFields records.now at
        → IsMade nodes.old nodes.new (typed_expr v) (value_in numbers at (text.field place (expr_tree head.now) name.now))) }
    ensures scope { OnOk result (scope.new ≡ scope.old) }
{
    let op = selected(
        head,
        alloc,
        scope,
        Context::Program,
        records,
        name.text.as_str(),
    )?;
    prefixed(head, alloc, scope, nodes, records, numbers, place, op)
}

/// An operator between its operands.
#[cycle(value)]
fn connected(
    left: &Expr,
    right: &Expr,
    alloc: Global,
    scope: &mut NameScope,
    nodes: &mut Nodes,
    records: &[RecordTy],
    numbers: Numbering,
    place: Place,
    operator: Operator,
) -> Result<Value, NoMemory>
    ensures made { IfOk result (λ v. (at : Scope) → Fits scope.old at → HasFields records.now at
        → IsMade nodes.old nodes.new (typed_expr v) (value_in numbers at (text.binary place operator (expr_tree left.now) (expr_tree right.now)))) }
    ensures scope { OnOk result (scope.new ≡ scope.old) }
{
    let node = nodes.add(place)?;
    let (left, right) = both(
        value_of(left, alloc, scope, nodes, records, numbers),
        value_of(right, alloc, scope, nodes, records, numbers),
    )?;
    Value::binary(alloc, node, operator, left, right)
}

/// A sequence with another element at an index.
#[cycle(value)]
fn updated(
    head: &Expr,
    index: &Expr,
    element: &Expr,
    alloc: Global,
    scope: &mut NameScope,
    nodes: &mut Nodes,
    records: &[RecordTy],
    numbers: Numbering,
    place: Place,
) -> Result<Value, NoMemory>
    ensures made { IfOk result (λ v. (at : Scope) → Fits scope.old at → HasFields records.now at
        → IsMade nodes.old nodes.new (typed_expr v) (value_in numbers at (text.update place (expr_tree head.now) (expr_tree index.now) (expr_tree element.now)))) }
    ensures scope { OnOk result (scope.new ≡ scope.old) }
{
    let node = nodes.add(place)?;
    let (head, index, element) = all_three(
        value_of(head, alloc, scope, nodes, records, numbers),
        value_of(index, alloc, scope, nodes, records, numbers),
        value_of(element, alloc, scope, nodes, records, numbers),
    )?;
    Value::update(alloc, node, head, index, element)
}

/// A head that is applied to arguments. A call is no value.
#[cycle(value)]
fn applied(
    head: &Expr,
    arguments: &[Expr],
    alloc: Global,
    scope: &mut NameScope,
    nodes: &mut Nodes,
    records: &[RecordTy],
    numbers: Numbering,
    place: Place,
) -> Result<Value, NoMemory>
    ensures made { IfOk result (λ v. (at : Scope) → Fits scope.old at → HasFields records.now at
        → IsMade nodes.old nodes.new (typed_expr v) (value_in numbers at (text.application place (expr_tree head.now) (exprs_of (map expr_tree arguments.now))))) }
    ensures scope { OnOk result (scope.new ≡ scope.old) }
{
    match head_of(scope, head) {
        Head::Value => read(
            head, arguments, alloc, scope, nodes, records, numbers, place,
        ),
        Head::Record(number) => {
            record(
                arguments, alloc, scope, nodes, records, numbers, place, number,
            )
        }
        Head::Method(_) => literal(nodes, place, 0),
    }
}

/// An element of a sequence, at the first of the arguments.
#[cycle(value)]
fn read(
    head: &Expr,
    arguments: &[Expr],
    alloc: Global,
    scope: &mut NameScope,
    nodes: &mut Nodes,
    records: &[RecordTy],
    numbers: Numbering,
    place: Place,
) -> Result<Value, NoMemory>
    ensures made { IfOk result (λ v. (at : Scope) → Fits scope.old at → HasFields records.now at
        → IsMade nodes.old nodes.new (typed_expr v) (numbered numbers (typed.value_applied place a_value
        (typed.value_of_tree at (expr_tree head.now)) (typed.values_of_trees at (exprs_of (map expr_tree arguments.now)))))) }
    ensures scope { OnOk result (scope.new ≡ scope.old) }
{
    let node = nodes.add(place)?;
    let (head, arguments) = both(
        value_of(head, alloc, scope, nodes, records, numbers),
        values_of(arguments, alloc, scope, nodes, records, numbers),
    )?;
    read_at(alloc, node, head, arguments)
}

/// A record with its fields.
#[cycle(value)]
fn record(
    fields: &[Expr],
    alloc: Global,
    scope: &mut NameScope,
    nodes: &mut Nodes,
    records: &[RecordTy],
    numbers: Numbering,
    place: Place,
    number: u32,
) -> Result<Value, NoMemory>
    ensures made { IfOk result (λ v. (at : Scope) → Fits scope.old at → HasFields records.now at
        → IsMade nodes.old nodes.new (typed_expr v) (numbered numbers (headed place (λ node parts. tree.listed node (record_of number) parts)
        (typed.values_of_trees at (exprs_of (map expr_tree fields.now)))))) }
    ensures scope { OnOk result (scope.new ≡ scope.old) }
{
    let node = nodes.add(place)?;
    let fields = values_of(fields, alloc, scope, nodes, records, numbers)?;
    Ok(Value::Rec(node, number, fields))
}

/// A sequence of elements.
#[cycle(value)]
fn sequence(
    elements: &[Expr],
    alloc: Global,
    scope: &mut NameScope,
    nodes: &mut Nodes,
    records: &[RecordTy],
    numbers: Numbering,
    place: Place,
    ty: &Option<TypeName>,
) -> Result<Value, NoMemory>
    ensures made { IfOk result (λ v. (at : Scope) → Fits scope.old at → HasFields records.now at
        → IsMade nodes.old nodes.new (typed_expr v) (value_in numbers at (text.sequence place (option_map type_tree ty.now) (exprs_of (map expr_tree elements.now))))) }
    ensures scope { OnOk result (scope.new ≡ scope.old) }
{
    let node = nodes.add(place)?;
    let (ty, elements) = both(
        elements_ty(ty, elements, alloc, scope, Context::Program),
        values_of(elements, alloc, scope, nodes, records, numbers),
    )?;
    Ok(Value::SeqLit(node, ty, elements))
}

/// The expressions of the program that several expressions of the text stand for.
#[cycle(value)]
#[tactic(auto, using(expression_judging::proofs::Sizes::size_lines))]
pub fn values_of(
    exprs: &[Expr],
    alloc: Global,
    scope: &mut NameScope,
    nodes: &mut Nodes,
    records: &[RecordTy],
    numbers: Numbering,
) -> Result<Items<Value>, NoMemory>
    ensures made { IfOk result (λ vs. (at : Scope) → Fits scope.old at → HasFields records.now at
        → IsMade nodes.old nodes.new (typed_exprs vs) (values_in numbers at (exprs_of (map expr_tree exprs.now)))) }
    ensures scope { OnOk result (scope.new ≡ scope.old) }
{
    let mut values = Items::new(alloc);
    for expr in exprs {
        let value = value_of(expr, alloc, scope, nodes, records, numbers)?;
        values.push(value)?;
    }
    Ok(values)
}
