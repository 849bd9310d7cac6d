ghost use Rattle.std.specs.Prelude.{◌≡◌, ◌&&◌, nat_eq, length, OnOk, map, true};
ghost use Rattle.slang_tree.specs.ExprTree.{expr_tree};
ghost use Rattle.slang_tree.specs.DeclTree.{method_decl_tree};
ghost use Rattle.print_declarations.specs.Accounts.{requires_clauses, modifies_clauses, ensures_clauses, clauses_of, contract_parts};
ghost use Rattle.expression_printing.specs.Printed.{Adds};
ghost use Rattle.declaration_printing.specs.Printed.{comma_unless, clauses_joined, clauses_written, part_lines};

use crate::NoMemory;
use expression_printing::add_arguments;
use slang_tree::{Expr, MethodDecl, Name};
use statement_printing::add_names;
use token_printing::{Gap, add_text, add_word};

/// Adds a comma, but in front of the first clause.
fn add_comma(first: bool, text: &mut Vec<u8>) -> Result<(), NoMemory>
    ensures { OnOk result (Adds text.old.items text.new.items (comma_unless first)) }
{
    if first { Ok(()) } else { add_text(",", text) }
}

/// Adds the clause of what is required, where there is something.
fn add_requires(claims: &[Expr], light: bool, text: &mut Vec<u8>) -> Result<(), NoMemory>
    ensures { OnOk result (Adds text.old.items text.new.items (clauses_joined true (requires_clauses light (map expr_tree claims.now)))) }
{
    if claims.is_empty() {
        Ok(())
    } else {
        add_word(Gap::Line(2), "Requires", text)?;
        add_arguments(claims, light, text)
    }
}

/// Adds the clause of what is modified, where there is something, behind a comma where it is not the first.
fn add_modifies(names: &[Name], first: bool, text: &mut Vec<u8>) -> Result<(), NoMemory>
    ensures { OnOk result (Adds text.old.items text.new.items (clauses_joined first (modifies_clauses names.now))) }
{
    if names.is_empty() {
        Ok(())
    } else {
        add_comma(first, text)?;
        add_word(Gap::Line(2), "Modifies", text)?;
        add_names(names, text)
    }
}

/// Adds the clause of what is ensured, where there is something, behind a comma where it is not the first.
fn add_ensures(
    claims: &[Expr],
    first: bool,
    light: bool,
    text: &mut Vec<u8>,
) -> Result<(), NoMemory>
    ensures { OnOk result (Adds text.old.items text.new.items (clauses_joined first (ensures_clauses light (map expr_tree claims.now)))) }
{
    if claims.is_empty() {
        Ok(())
    } else {
        add_comma(first, text)?;
        add_word(Gap::Line(2), "Ensures", text)?;
        add_arguments(claims, light, text)
    }
}

/// Whether neither says something.
fn are_empty(claims: &[Expr], names: &[Name]) -> bool
    ensures { result ≡ (nat_eq (length claims.now) 0 && nat_eq (length names.now) 0) }
{
    claims.is_empty() && names.is_empty()
}

/// Adds the clauses of a contract, each on a line of its own and parted by commas.
fn add_clauses(
    requires_: &[Expr],
    modifies: &[Name],
    ensures_: &[Expr],
    light: bool,
    text: &mut Vec<u8>,
) -> Result<(), NoMemory>
    ensures { OnOk result (Adds text.old.items text.new.items (clauses_joined true (clauses_written light requires_.now modifies.now ensures_.now))) }
{
    add_requires(requires_, light, text)?;
    add_modifies(modifies, requires_.is_empty(), text)?;
    add_ensures(ensures_, are_empty(requires_, modifies), light, text)
}

/// Whether a contract says nothing.
fn says_nothing(requires_: &[Expr], modifies: &[Name], ensures_: &[Expr]) -> bool
    ensures { result ≡ ((nat_eq (length requires_.now) 0 && nat_eq (length modifies.now) 0) && nat_eq (length ensures_.now) 0) }
{
    are_empty(requires_, modifies) && ensures_.is_empty()
}

/// Adds a contract on lines of its own, where it says something.
fn add_written(
    requires_: &[Expr],
    modifies: &[Name],
    ensures_: &[Expr],
    light: bool,
    text: &mut Vec<u8>,
) -> Result<(), NoMemory>
    ensures { OnOk result (Adds text.old.items text.new.items (part_lines (contract_parts (clauses_written light requires_.now modifies.now ensures_.now)))) }
{
    if says_nothing(requires_, modifies, ensures_) {
        Ok(())
    } else {
        add_word(Gap::Line(1), "Contract", text)?;
        add_text("(", text)?;
        add_clauses(requires_, modifies, ensures_, light, text)?;
        add_word(Gap::Line(1), ")", text)
    }
}

/// Adds the contract of a method.
pub(crate) fn add_contract(
    decl: &MethodDecl,
    light: bool,
    text: &mut Vec<u8>,
) -> Result<(), NoMemory>
    ensures { OnOk result (Adds text.old.items text.new.items (part_lines (contract_parts (clauses_of light (method_decl_tree decl.now))))) }
{
    add_written(
        decl.requires_.as_slice(),
        decl.modifies.as_slice(),
        decl.ensures_.as_slice(),
        light,
        text,
    )
}
