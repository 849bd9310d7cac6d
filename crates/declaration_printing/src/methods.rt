ghost use Rattle.std.specs.Prelude.{OnOk, map};
ghost use Rattle.std.specs.Option.{option_map};
ghost use Rattle.slang_tree.specs.TypeTree.{type_tree};
ghost use Rattle.slang_tree.specs.StmtTree.{stmt_tree};
ghost use Rattle.slang_tree.specs.DeclTree.{param_tree, return_tree, method_decl_tree};
ghost use Rattle.print_declarations.specs.Accounts.{stmt_parts, return_parts, method_account};
ghost use Rattle.print_layout.specs.Declarations.{method_pieces};
ghost use Rattle.token_printing.specs.Gaps.{gap_seen};
ghost use Rattle.expression_printing.specs.Printed.{Adds};
ghost use Rattle.declaration_printing.specs.Printed.{named_pieces, params_listed, params_behind, part_lines};

use crate::NoMemory;
use crate::contracts::add_contract;
use expression_printing::add_expr;
use slang_tree::{MethodDecl, Name, Param, Return, Stmt, TypeName};
use statement_printing::add_stmt;
use token_printing::{Gap, add_name, add_text, add_type, add_word};

/// Adds a name with its type behind a gap.
pub(crate) fn add_with_type(
    name: &Name,
    ty: &TypeName,
    gap: Gap,
    text: &mut Vec<u8>,
) -> Result<(), NoMemory>
    ensures { OnOk result (Adds text.old.items text.new.items (named_pieces (gap_seen gap) name.now (type_tree ty.now))) }
{
    add_name(gap, name, text)?;
    add_text(":", text)?;
    add_type(ty, Gap::Blank, text)
}

/// Adds parameters, each behind a comma.
fn add_params_behind(params: &[Param], text: &mut Vec<u8>) -> Result<(), NoMemory>
    ensures { OnOk result (Adds text.old.items text.new.items (params_behind (map param_tree params.now))) }
{
    for param in params {
        add_text(",", text)?;
        add_with_type(&param.name, &param.ty, Gap::Blank, text)?;
    }
    Ok(())
}

/// Adds parameters, parted by commas.
fn add_params(params: &[Param], text: &mut Vec<u8>) -> Result<(), NoMemory>
    ensures { OnOk result (Adds text.old.items text.new.items (params_listed (map param_tree params.now))) }
{
    match params.split_first() {
        None => Ok(()),
        Some((param, others)) => {
            add_with_type(&param.name, &param.ty, Gap::None, text)?;
            add_params_behind(others, text)
        }
    }
}

/// Adds the statements of a method, each on lines of its own.
fn add_body(stmts: &[Stmt], light: bool, text: &mut Vec<u8>) -> Result<(), NoMemory>
    ensures { OnOk result (Adds text.old.items text.new.items (part_lines (stmt_parts light (map stmt_tree stmts.now)))) }
{
    for stmt in stmts {
        add_stmt(stmt, 1, Gap::Line(1), light, text)?;
    }
    Ok(())
}

/// Adds what a method returns on a line of its own, where it returns something.
fn add_return(returned: &Option<Return>, light: bool, text: &mut Vec<u8>) -> Result<(), NoMemory>
    ensures { OnOk result (Adds text.old.items text.new.items (part_lines (return_parts light (option_map return_tree returned.now)))) }
{
    match returned {
        None => Ok(()),
        Some(returned) => {
            add_word(Gap::Line(1), "return", text)?;
            add_expr(&returned.value, Gap::Blank, light, text)
        }
    }
}

/// Adds a method behind a gap.
pub(crate) fn add_method(
    decl: &MethodDecl,
    gap: Gap,
    light: bool,
    text: &mut Vec<u8>,
) -> Result<(), NoMemory>
    ensures { OnOk result (Adds text.old.items text.new.items (method_pieces (gap_seen gap) (method_account light (method_decl_tree decl.now)))) }
{
    add_word(gap, "def", text)?;
    add_name(Gap::Blank, &decl.name, text)?;
    add_text("(", text)?;
    add_params(decl.params.as_slice(), text)?;
    add_text(")", text)?;
    add_text(":", text)?;
    add_type(&decl.result, Gap::Blank, text)?;
    add_word(Gap::Blank, "=", text)?;
    add_word(Gap::Blank, "{", text)?;
    add_contract(decl, light, text)?;
    add_body(decl.body.as_slice(), light, text)?;
    add_return(&decl.returned, light, text)?;
    add_word(Gap::Line(0), "}", text)
}
