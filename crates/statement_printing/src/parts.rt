ghost use Rattle.std.specs.Prelude.{OnOk, map, [], ◌∷◌};
ghost use Rattle.std.specs.Option.{option_map};
ghost use Rattle.slang_tree.specs.TypeTree.{type_tree};
ghost use Rattle.slang_tree.specs.ExprTree.{expr_tree};
ghost use Rattle.slang_tree.specs.StmtTree.{step_tree, steps_of};
ghost use Rattle.slang_grammar.specs.Statements.{value_word};
ghost use Rattle.print_expressions.specs.Bare.{nowhere};
ghost use Rattle.print_statements.specs.Accounts.{names_account, typed_account, claims_account, invariant_account, steps_account};
ghost use Rattle.print_layout.specs.Pieces.{none, mark};
ghost use Rattle.print_layout.specs.Expressions.{names_pieces, optional_typed};
ghost use Rattle.print_layout.specs.Statements.{claims_behind_pieces, invariant_pieces};
ghost use Rattle.token_printing.specs.Gaps.{gap_seen};
ghost use Rattle.expression_printing.specs.Printed.{Adds};
ghost use Rattle.statement_printing.specs.Printed.{names_behind, names_listed, declared_pieces, enclosed_pieces, deduction_pieces};

use crate::NoMemory;
use expression_printing::{add_expr, add_exprs};
use slang_tree::{Expr, Name, Step, TypeName};
use step_printing::{add_steps, deeper};
use token_printing::{Gap, add_name, add_text, add_type, add_word};

/// Adds names, each behind a comma.
fn add_names_behind(names: &[Name], text: &mut Vec<u8>) -> Result<(), NoMemory>
    ensures { OnOk result (Adds text.old.items text.new.items (names_behind names.now)) }
{
    for name in names {
        add_text(",", text)?;
        add_name(Gap::Blank, name, text)?;
    }
    Ok(())
}

/// Adds names, parted by commas.
fn add_listed(names: &[Name], text: &mut Vec<u8>) -> Result<(), NoMemory>
    ensures { OnOk result (Adds text.old.items text.new.items (names_listed names.now)) }
{
    match names.split_first() {
        None => Ok(()),
        Some((name, others)) => {
            add_name(Gap::None, name, text)?;
            add_names_behind(others, text)
        }
    }
}

/// Adds names in round brackets.
pub fn add_names(names: &[Name], text: &mut Vec<u8>) -> Result<(), NoMemory>
    ensures { OnOk result (Adds text.old.items text.new.items (names_pieces none (names_account names.now))) }
{
    add_text("(", text)?;
    add_listed(names, text)?;
    add_text(")", text)
}

/// Adds a type behind a colon, where there is one.
pub fn add_typed(ty: &Option<TypeName>, text: &mut Vec<u8>) -> Result<(), NoMemory>
    ensures { OnOk result (Adds text.old.items text.new.items (optional_typed (option_map typed_account (option_map type_tree ty.now)))) }
{
    match ty {
        None => Ok(()),
        Some(ty) => {
            add_text(":", text)?;
            add_type(ty, Gap::Blank, text)
        }
    }
}

/// Adds `val` or `var` behind a gap.
fn add_value_word(fixed: bool, gap: Gap, text: &mut Vec<u8>) -> Result<(), NoMemory>
    ensures { OnOk result (Adds text.old.items text.new.items (mark (gap_seen gap) (value_word fixed) nowhere ∷ [])) }
{
    if fixed {
        add_word(gap, "val", text)
    } else {
        add_word(gap, "var", text)
    }
}

/// Adds `val` or `var` behind a gap, and what is declared, up to its value.
pub fn add_declared(
    fixed: bool,
    name: &Name,
    ty: &Option<TypeName>,
    gap: Gap,
    text: &mut Vec<u8>,
) -> Result<(), NoMemory>
    ensures { OnOk result (Adds text.old.items text.new.items (declared_pieces (gap_seen gap) fixed name.now ty.now)) }
{
    add_value_word(fixed, gap, text)?;
    add_name(Gap::Blank, name, text)?;
    add_typed(ty, text)?;
    add_word(Gap::Blank, "=", text)
}

/// Adds an expression in round brackets behind a gap.
pub(crate) fn add_enclosed(
    expr: &Expr,
    gap: Gap,
    light: bool,
    text: &mut Vec<u8>,
) -> Result<(), NoMemory>
    ensures { OnOk result (Adds text.old.items text.new.items (enclosed_pieces light (gap_seen gap) expr.now)) }
{
    add_word(gap, "(", text)?;
    add_expr(expr, Gap::None, light, text)?;
    add_text(")", text)
}

/// Adds claims, each on a line of its own, where there are some.
fn add_claims(claims: &[Expr], depth: u32, light: bool, text: &mut Vec<u8>) -> Result<(), NoMemory>
    ensures { OnOk result (Adds text.old.items text.new.items (claims_behind_pieces depth (claims_account light (map expr_tree claims.now)))) }
{
    if claims.is_empty() {
        Ok(())
    } else {
        add_text(",", text)?;
        add_exprs(claims, Gap::Line(depth), Gap::Line(depth), light, text)
    }
}

/// Adds the invariant of a loop.
pub(crate) fn add_invariant(
    modifies: &[Name],
    claims: &[Expr],
    depth: u32,
    light: bool,
    text: &mut Vec<u8>,
) -> Result<(), NoMemory>
    ensures { OnOk result (Adds text.old.items text.new.items (invariant_pieces depth (invariant_account light modifies.now (map expr_tree claims.now)))) }
{
    let inner = deeper(depth)?;
    add_word(Gap::Line(depth), "Invariant", text)?;
    add_text("(", text)?;
    add_word(Gap::Line(inner), "Modifies", text)?;
    add_names(modifies, text)?;
    add_claims(claims, inner, light, text)?;
    add_word(Gap::Line(depth), ")", text)
}

/// Adds a deduction behind a gap.
pub(crate) fn add_deduction(
    steps: &[Step],
    depth: u32,
    gap: Gap,
    light: bool,
    text: &mut Vec<u8>,
) -> Result<(), NoMemory>
    ensures { OnOk result (Adds text.old.items text.new.items (deduction_pieces light depth (gap_seen gap) steps.now)) }
{
    let inner = deeper(depth)?;
    add_word(gap, "Deduce", text)?;
    add_text("(", text)?;
    add_steps(steps, inner, light, text)?;
    add_word(Gap::Line(depth), ")", text)
}
