ghost use Rattle.std.specs.Prelude.{◌≡◌, IfOk, map};
ghost use Rattle.std.specs.Option.{option_map};
ghost use Rattle.slang_tree.specs.TypeTree.{type_tree};
ghost use Rattle.slang_tree.specs.DeclTree.{const_tree, consts_of};
ghost use Rattle.type_rules.specs.Meanings.{Scope};
ghost use Rattle.lk_programs.specs.Expr.{typed_expr, typed_exprs};
ghost use Rattle.name_scopes.specs.Fits.{Fits};
ghost use Rattle.typed_names.specs.Nodes.{IsMade};
ghost use Rattle.constant_making.specs.Constants.{constant_in, constants_in, minus_in, record_in, sequence_in};

use crate::NoMemory;
use crate::types::{elements_ty, record_number};
use lk_programs::Expr as Value;
use name_scopes::NameScope;
use owned_results::both;
use slang_tree::{Const, Name, Place, TypeName};
use slang_values::Unary;
use sqlite_items::Items;
use std::alloc::Global;
use typed_names::Nodes;
use value_making::{literal, truth};

/// The expression that a constant stands for.
#[cycle(constant)]
#[tactic(auto, using(slang_tree::proofs::Lines::const_lines, constant_judging::proofs::Sizes::smaller_lines))]
pub fn constant_of(
    constant: &Const,
    alloc: Global,
    scope: &NameScope,
    nodes: &mut Nodes,
) -> Result<Value, NoMemory>
    ensures { IfOk result (λ v. (at : Scope) → Fits scope.now at → IsMade nodes.old nodes.new (typed_expr v) (constant_in at (const_tree constant.now))) }
{
    match constant {
        Const::Number(place, z) => literal(nodes, *place, *z),
        Const::Minus(place, digits, z) => minus(alloc, nodes, *place, *digits, *z),
        Const::True(place) => truth(nodes, *place, true),
        Const::False(place) => truth(nodes, *place, false),
        Const::Sequence(place, ty, elements) => {
            sequence(elements.as_slice(), alloc, scope, nodes, *place, ty)
        }
        Const::Record(name, fields) => record(fields.as_slice(), alloc, scope, nodes, name),
    }
}

/// A minus in front of a number.
fn minus(
    alloc: Global,
    nodes: &mut Nodes,
    place: Place,
    digits: Place,
    number: i128,
) -> Result<Value, NoMemory>
    ensures { IfOk result (λ v. (at : Scope) → IsMade nodes.old nodes.new (typed_expr v) (minus_in at place digits number)) }
{
    let node = nodes.add(place)?;
    let operand = literal(nodes, digits, number)?;
    Value::unary(alloc, node, Unary::Neg, operand)
}

/// A sequence of elements.
#[cycle(constant)]
fn sequence(
    elements: &[Const],
    alloc: Global,
    scope: &NameScope,
    nodes: &mut Nodes,
    place: Place,
    ty: &Option<TypeName>,
) -> Result<Value, NoMemory>
    ensures { IfOk result (λ v. (at : Scope) → Fits scope.now at → IsMade nodes.old nodes.new (typed_expr v)
        (sequence_in at place (option_map type_tree ty.now) (consts_of (map const_tree elements.now)))) }
{
    let node = nodes.add(place)?;
    let (ty, elements) = both(
        elements_ty(ty, elements, alloc, scope),
        constants_of(elements, alloc, scope, nodes),
    )?;
    Ok(Value::SeqLit(node, ty, elements))
}

/// A record with its fields.
#[cycle(constant)]
fn record(
    fields: &[Const],
    alloc: Global,
    scope: &NameScope,
    nodes: &mut Nodes,
    name: &Name,
) -> Result<Value, NoMemory>
    ensures { IfOk result (λ v. (at : Scope) → Fits scope.now at → IsMade nodes.old nodes.new (typed_expr v)
        (record_in at name.now (consts_of (map const_tree fields.now)))) }
{
    let node = nodes.add(name.place)?;
    let number = record_number(scope, name.text.as_str());
    let fields = constants_of(fields, alloc, scope, nodes)?;
    Ok(Value::Rec(node, number, fields))
}

/// The expressions that several constants stand for.
#[cycle(constant)]
#[tactic(auto, using(constant_judging::proofs::Sizes::size_lines))]
pub fn constants_of(
    constants: &[Const],
    alloc: Global,
    scope: &NameScope,
    nodes: &mut Nodes,
) -> Result<Items<Value>, NoMemory>
    ensures { IfOk result (λ vs. (at : Scope) → Fits scope.now at → IsMade nodes.old nodes.new (typed_exprs vs)
        (constants_in at (consts_of (map const_tree constants.now)))) }
{
    let mut values = Items::new(alloc);
    for constant in constants {
        let value = constant_of(constant, alloc, scope, nodes)?;
        values.push(value)?;
    }
    Ok(values)
}
