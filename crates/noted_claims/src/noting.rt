ghost use Rattle.std.specs.Prelude.{IfOk, OnOk, ◌≡◌, map};
ghost use Rattle.slang_tree.specs.ExprTree.{expr_tree};
ghost use Rattle.typed_texts.specs.Code as typed;
ghost use Rattle.expression_forms.specs.Context.{context_seen};
ghost use Rattle.noted_claims.specs.Noted.{AreNoted, IsNoted};

use crate::NoMemory;
use crate::places::place_of;
use claim_making::made_claim;
use expression_forms::Context;
use lk_programs::{Noted, RecordTy};
use name_scopes::NameScope;
use slang_tree::Expr;
use sqlite_items::Items;
use std::alloc::Global;
use typed_names::{Nodes, Numbering};

/// The claim that an expression stands for, with its one node.
pub fn noted(
    expr: &Expr,
    alloc: Global,
    scope: &mut NameScope,
    nodes: &mut Nodes,
    records: &[RecordTy],
    numbers: Numbering,
    context: Context,
) -> Result<Noted, NoMemory>
    ensures noted { IfOk result (IsNoted records.now numbers scope.old nodes.old nodes.new (λ at. typed.noted at (context_seen context) (expr_tree expr.now))) }
    ensures scope { OnOk result (scope.new ≡ scope.old) }
{
    let node = nodes.add(place_of(expr))?;
    let claim = made_claim(expr, alloc, scope, records, numbers, context)?;
    Ok(Noted { claim, node })
}

/// The claims that expressions stand for, each with its node.
pub fn all_noted(
    exprs: &[Expr],
    alloc: Global,
    scope: &mut NameScope,
    nodes: &mut Nodes,
    records: &[RecordTy],
    numbers: Numbering,
    context: Context,
) -> Result<Items<Noted>, NoMemory>
    ensures noted { IfOk result (AreNoted records.now numbers scope.old nodes.old nodes.new (λ at. typed.all_noted at (context_seen context) (map expr_tree exprs.now))) }
    ensures scope { OnOk result (scope.new ≡ scope.old) }
{
    let mut made = Items::new(alloc);
    for expr in exprs {
        made.push(noted(expr, alloc, scope, nodes, records, numbers, context)?)?;
    }
    Ok(made)
}
