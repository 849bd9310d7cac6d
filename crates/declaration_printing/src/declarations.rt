ghost use Rattle.std.specs.Prelude.{false, OnOk, map};
ghost use Rattle.slang_tree.specs.DeclTree.{field_tree, record_decl, record_decl_tree, global_decl, global_decl_tree, decl_tree};
ghost use Rattle.print_declarations.specs.Accounts.{import_account, decl_account};
ghost use Rattle.print_layout.specs.Declarations.{decl_pieces};
ghost use Rattle.token_printing.specs.Gaps.{gap_seen};
ghost use Rattle.expression_printing.specs.Printed.{Adds};
ghost use Rattle.declaration_printing.specs.Printed.{params_listed, params_behind, path_behind};

use crate::NoMemory;
use crate::methods::{add_method, add_with_type};
use constant_printing::add_const;
use slang_tree::{Decl, FieldDecl, GlobalDecl, Name, RecordDecl};
use statement_printing::add_declared;
use token_printing::{Gap, add_name, add_text, add_word};

/// Adds names, each behind a dot.
fn add_path_behind(names: &[Name], text: &mut Vec<u8>) -> Result<(), NoMemory>
    ensures { OnOk result (Adds text.old.items text.new.items (path_behind names.now)) }
{
    for name in names {
        add_text(".", text)?;
        add_name(Gap::None, name, text)?;
    }
    Ok(())
}

/// Adds an import behind a gap.
fn add_import(path: &[Name], gap: Gap, text: &mut Vec<u8>) -> Result<(), NoMemory>
    ensures { OnOk result (Adds text.old.items text.new.items (decl_pieces (gap_seen gap) (import_account path.now))) }
{
    add_word(gap, "import", text)?;
    match path.split_first() {
        // An import has a name; one without is printed with a blank in its place.
        None => add_text(" ", text),
        Some((name, others)) => {
            add_name(Gap::Blank, name, text)?;
            add_path_behind(others, text)
        }
    }
}

/// Adds a global behind a gap.
fn add_global(decl: &GlobalDecl, gap: Gap, text: &mut Vec<u8>) -> Result<(), NoMemory>
    ensures { OnOk result (Adds text.old.items text.new.items (decl_pieces (gap_seen gap) (decl_account false (global_decl (global_decl_tree decl.now))))) }
{
    add_declared(decl.fixed, &decl.name, &decl.ty, gap, text)?;
    add_const(&decl.init, Gap::Blank, text)
}

/// Adds fields, each behind a comma.
fn add_fields_behind(fields: &[FieldDecl], text: &mut Vec<u8>) -> Result<(), NoMemory>
    ensures { OnOk result (Adds text.old.items text.new.items (params_behind (map field_tree fields.now))) }
{
    for field in fields {
        add_text(",", text)?;
        add_with_type(&field.name, &field.ty, Gap::Blank, text)?;
    }
    Ok(())
}

/// Adds fields, parted by commas.
fn add_fields(fields: &[FieldDecl], text: &mut Vec<u8>) -> Result<(), NoMemory>
    ensures { OnOk result (Adds text.old.items text.new.items (params_listed (map field_tree fields.now))) }
{
    match fields.split_first() {
        None => Ok(()),
        Some((field, others)) => {
            add_with_type(&field.name, &field.ty, Gap::None, text)?;
            add_fields_behind(others, text)
        }
    }
}

/// Adds a record behind a gap.
fn add_record(decl: &RecordDecl, gap: Gap, text: &mut Vec<u8>) -> Result<(), NoMemory>
    ensures { OnOk result (Adds text.old.items text.new.items (decl_pieces (gap_seen gap) (decl_account false (record_decl (record_decl_tree decl.now))))) }
{
    add_word(gap, "@", text)?;
    add_text("datatype", text)?;
    add_word(Gap::Blank, "class", text)?;
    add_name(Gap::Blank, &decl.name, text)?;
    add_text("(", text)?;
    add_fields(decl.fields.as_slice(), text)?;
    add_text(")", text)
}

/// Adds a declaration behind a gap.
pub fn add_decl(decl: &Decl, gap: Gap, light: bool, text: &mut Vec<u8>) -> Result<(), NoMemory>
    ensures { OnOk result (Adds text.old.items text.new.items (decl_pieces (gap_seen gap) (decl_account light (decl_tree decl.now)))) }
{
    match decl {
        Decl::Import { path, .. } => add_import(path.as_slice(), gap, text),
        Decl::Global(decl) => add_global(decl, gap, text),
        Decl::Record(decl) => add_record(decl, gap, text),
        Decl::Method(decl) => add_method(decl, gap, light, text),
    }
}
