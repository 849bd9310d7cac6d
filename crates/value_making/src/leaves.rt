ghost use Rattle.std.specs.Prelude.{◌≡◌, IfOk, pos};
ghost use Rattle.lk_programs.specs.Expr.{typed_expr};
ghost use Rattle.program_trees.specs.Programs as tree;
ghost use Rattle.type_rules.specs.Meanings.{Scope, meaning_of};
ghost use Rattle.typed_texts.specs.Numbered.{numbered_map, single};
ghost use Rattle.typed_texts.specs.Values as typed;
ghost use Rattle.name_scopes.specs.Fits.{Fits};
ghost use Rattle.typed_names.specs.Nodes.{IsMade};
ghost use Rattle.typed_names.specs.Variables.{number_in};
ghost use Rattle.value_making.specs.Values.{numbered};

use crate::NoMemory;
use lk_programs::{Expr, NodeNo};
use name_scopes::NameScope;
use slang_tree::{Name, Place};
use typed_names::{Nodes, Numbering, variable_named};

/// A number.
#[tactic(auto, using(lk_programs::proofs::Exprs::leaf_lines, typed_names::proofs::Made::made_single))]
pub fn literal(nodes: &mut Nodes, place: Place, number: i128) -> Result<Expr, NoMemory>
    ensures { IfOk result (λ e. IsMade nodes.old nodes.new (typed_expr e) (single place (λ node. tree.number node number))) }
{
    let node = nodes.add(place)?;
    Ok(Expr::Lit(node, number))
}

/// A truth value.
pub fn truth(nodes: &mut Nodes, place: Place, value: bool) -> Result<Expr, NoMemory>
    ensures { IfOk result (λ e. IsMade nodes.old nodes.new (typed_expr e) (single place (λ node. tree.truth node value))) }
{
    let node = nodes.add(place)?;
    Ok(Expr::truth(node, value))
}

/// What a name means at a node: a variable. What names none is no value.
#[tactic(auto, using(lk_programs::proofs::Exprs::leaf_lines))]
fn meant_at(
    scope: &NameScope,
    numbers: Numbering,
    name: &str,
    node: NodeNo,
) -> Result<Expr, NoMemory>
    ensures { IfOk result (λ e. (at : Scope) → Fits scope.now at
        → typed_expr e ≡ tree.renamed_expr (number_in numbers) (typed.value_meant node.0 (meaning_of at name.now))) }
{
    match variable_named(scope, name) {
        None => Ok(Expr::Lit(node, 0)),
        Some(variable) => Ok(Expr::Var(node, numbers.number_of(variable)?)),
    }
}

/// A name.
pub fn named(
    scope: &NameScope,
    nodes: &mut Nodes,
    numbers: Numbering,
    name: &Name,
) -> Result<Expr, NoMemory>
    ensures { IfOk result (λ e. (at : Scope) → Fits scope.now at → IsMade nodes.old nodes.new (typed_expr e)
        (numbered numbers (single name.now.place (λ node. typed.value_meant node (meaning_of at name.now.text))))) }
{
    let node = nodes.add(name.place)?;
    meant_at(scope, numbers, name.text.as_str(), node)
}
