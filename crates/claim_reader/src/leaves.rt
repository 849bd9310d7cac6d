ghost use Rattle.slang_values.specs.Tree.{bound, name};
ghost use Rattle.program_trees.specs.Claims.{let_symbol, old_variable, variable};
ghost use Rattle.key_cursor.specs.Reads.{Reads, left};
ghost use Rattle.lk_claims.specs.Claim.{claim_tree};
ghost use Rattle.claim_reader.specs.Heads.{literal_behind, number_behind};

use key_cursor::{KeyCursor, ReadEnd};
use lk_claims::Claim;

pub(crate) fn read_literal(cursor: &mut KeyCursor<'_>) -> Result<Claim, ReadEnd>
    ensures { Reads claim_tree literal_behind (left cursor.old) (left cursor.new) result }
{
    let number = cursor.read_literal()?;
    Ok(Claim::Lit(number))
}

pub(crate) fn read_variable(cursor: &mut KeyCursor<'_>) -> Result<Claim, ReadEnd>
    ensures { Reads claim_tree (number_behind (λ x. name (variable x))) (left cursor.old) (left cursor.new) result }
{
    let number = cursor.read_number()?;
    Ok(Claim::Var(number))
}

pub(crate) fn read_bound(cursor: &mut KeyCursor<'_>) -> Result<Claim, ReadEnd>
    ensures { Reads claim_tree (number_behind bound) (left cursor.old) (left cursor.new) result }
{
    let number = cursor.read_number()?;
    Ok(Claim::Bound(number))
}

pub(crate) fn read_old_variable(cursor: &mut KeyCursor<'_>) -> Result<Claim, ReadEnd>
    ensures { Reads claim_tree (number_behind (λ x. name (old_variable x))) (left cursor.old) (left cursor.new) result }
{
    let number = cursor.read_number()?;
    Ok(Claim::OldVar(number))
}

pub(crate) fn read_let_symbol(cursor: &mut KeyCursor<'_>) -> Result<Claim, ReadEnd>
    ensures { Reads claim_tree (number_behind (λ label. name (let_symbol label))) (left cursor.old) (left cursor.new) result }
{
    let label = cursor.read_number()?;
    Ok(Claim::LetSym(label))
}
