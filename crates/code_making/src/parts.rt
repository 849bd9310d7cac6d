ghost use Rattle.std.specs.Prelude.{◌≡◌, IfOk, OnOk, Ok, map};
ghost use Rattle.slang_tree.specs.declared.place.Place.{Place};
ghost use Rattle.slang_tree.specs.ExprTree.{expr_tree};
ghost use Rattle.slang_tree.specs.StmtTree.{assertion, deduction, step_tree, steps_of};
ghost use Rattle.type_rules.specs.Meanings.{Scope};
ghost use Rattle.typed_texts.specs.Code as typed;
ghost use Rattle.lk_programs.specs.Program.{code_tree};
ghost use Rattle.name_scopes.specs.Fits.{Fits};
ghost use Rattle.typed_names.specs.Fields.{HasFields};
ghost use Rattle.typed_names.specs.Nodes.{IsMade};
ghost use Rattle.call_making.specs.Codes.{numbered_code};

use crate::NoMemory;
use expression_forms::Context;
use lk_programs::{Code, RecordTy};
use name_scopes::NameScope;
use noted_claims::noted;
use slang_tree::{Expr, Place, Step};
use std::alloc::Global;
use step_making::made_steps;
use typed_names::{Nodes, Numbering};

/// All four parts, or the first error.
pub fn all_four<A: Drop, B: Drop, C: Drop, D: Drop, E: Drop>(
    a: Result<A, E>,
    b: Result<B, E>,
    c: Result<C, E>,
    d: Result<D, E>,
) -> Result<(A, B, C, D), E>
    ensures { IfOk result (λ p. (a ≡ Ok p.0) × (b ≡ Ok p.1) × (c ≡ Ok p.2) × (d ≡ Ok p.3)) }
{
    match a {
        Err(e) => Err(e),
        Ok(a) => match b {
            Err(e) => Err(e),
            Ok(b) => match c {
                Err(e) => Err(e),
                Ok(c) => match d {
                    Err(e) => Err(e),
                    Ok(d) => Ok((a, b, c, d)),
                },
            },
        },
    }
}

/// A claim is to be shown.
#[tactic(auto, using(lk_programs::proofs::Codes::code_lines))]
pub fn asserted(
    claim: &Expr,
    alloc: Global,
    scope: &mut NameScope,
    nodes: &mut Nodes,
    records: &[RecordTy],
    numbers: Numbering,
) -> Result<Code, NoMemory>
    ensures made { IfOk result (λ code. (at : Scope) (place : Place) → Fits scope.old at → HasFields records.now at
        → IsMade nodes.old nodes.new (code_tree code) (numbered_code numbers (typed.code_of_tree at (assertion place (expr_tree claim.now))))) }
    ensures scope { OnOk result (scope.new ≡ scope.old) }
{
    let claim = noted(claim, alloc, scope, nodes, records, numbers, Context::Claim)?;
    Ok(Code::Assert(claim))
}

/// A proof.
#[tactic(auto, using(lk_programs::proofs::Codes::code_lines))]
pub fn deduced(
    steps: &[Step],
    alloc: Global,
    scope: &mut NameScope,
    nodes: &mut Nodes,
    records: &[RecordTy],
    numbers: Numbering,
    place: Place,
) -> Result<Code, NoMemory>
    ensures made { IfOk result (λ code. (at : Scope) → Fits scope.old at → HasFields records.now at
        → IsMade nodes.old nodes.new (code_tree code) (numbered_code numbers (typed.code_of_tree at (deduction place (steps_of (map step_tree steps.now)))))) }
    ensures scope { OnOk result (scope.new ≡ scope.old) }
{
    let node = nodes.add(place)?;
    let steps = made_steps(steps, alloc, scope, records, numbers)?;
    Ok(Code::Deduce { node, steps })
}
