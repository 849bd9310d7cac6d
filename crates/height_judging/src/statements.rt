ghost use Rattle.std.specs.Prelude.{◌≡◌, map};
ghost use Rattle.std.specs.Option.{option_map};
ghost use Rattle.slang_tree.specs.StmtTree.{stmt_tree, stmts_of, else_of};
ghost use Rattle.type_faults.specs.FirstFault.{with_first};
ghost use Rattle.height_rules.specs.Faults as rule;

use crate::expressions::{claim_heights, expression_height, expression_heights};
use crate::limits::BLOCK_LIMIT;
use crate::steps::step_heights;
use slang_tree::Stmt;
use sqlite_items::Items;
use type_faults::FirstFault;

/// Tells what is too high in a statement.
#[cycle(statements)]
#[tactic(auto, using(slang_tree::proofs::Lines::stmt_lines, crate::proofs::Sizes::smaller_lines))]
fn statement_height(stmt: &Stmt, told: &mut FirstFault)
    ensures { told.new.found ≡ with_first told.old.found (rule.stmt_too_high (stmt_tree stmt.now)) }
{
    match stmt {
        Stmt::Val { value, .. } => expression_height(told, value),
        Stmt::Var { value, .. } => expression_height(told, value),
        Stmt::Assign { value, .. } => expression_height(told, value),
        Stmt::Call { arguments, .. } => expression_heights(told, arguments.as_slice()),
        Stmt::If {
            test,
            then,
            otherwise,
            ..
        } => {
            expression_height(told, test);
            statement_heights(then.as_slice(), told);
            match otherwise {
                None => {}
                Some(stmts) => statement_heights(stmts.as_slice(), told),
            }
        }
        Stmt::While {
            test,
            claims,
            body,
            ..
        } => {
            expression_height(told, test);
            claim_heights(told, claims.as_slice());
            statement_heights(body.as_slice(), told);
        }
        Stmt::Assert { claim, .. } => expression_height(told, claim),
        Stmt::Deduce { steps, .. } => step_heights(told, steps.as_slice(), BLOCK_LIMIT),
    }
}

/// Tells what is too high in some statements.
#[cycle(statements)]
#[tactic(auto, using(crate::proofs::Sizes::size_lines))]
pub fn statement_heights(stmts: &[Stmt], told: &mut FirstFault)
    ensures { told.new.found ≡ with_first told.old.found (rule.stmts_too_high (stmts_of (map stmt_tree stmts.now))) }
{
    for stmt in stmts {
        statement_height(stmt, told);
    }
}
