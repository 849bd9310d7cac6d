ghost use Rattle.std.specs.Prelude.{◌≡◌, Bool, IfOk, OnOk, map, Some};
ghost use Rattle.slang_tree.specs.DeclTree.{decl_tree};
ghost use Rattle.print_declarations.specs.Accounts.{decl_account, file_account};
ghost use Rattle.print_layout.specs.Declarations.{file_pieces};
ghost use Rattle.token_printing.specs.Gaps.{gap_seen};
ghost use Rattle.expression_printing.specs.Printed.{Adds};
ghost use Rattle.print_tokens.specs.Printed.{IsPrinted};
ghost use Rattle.slang_print.specs.Printed.{kind_seen, gap_of, ends_deep, Tells};

use declaration_printing::{NoMemory, add_decl};
use slang_tokens::{NESTS_TOO_DEEP, TokensEnd, read_tokens};
use slang_tree::Decl;
use std::alloc::Global;
use token_printing::{Gap, add_text};

/// A kind of declaration that stands before another, where one does.
#[derive(Clone, Copy)]
pub(crate) enum Before {
    Nothing,
    Import,
    Global,
    Other,
}

/// Of which kind a declaration is.
fn kind_of(decl: &Decl) -> Before
    ensures { (light : Bool) → result ≡ kind_seen (Some (decl_account light (decl_tree decl.now))) }
{
    match decl {
        Decl::Import { .. } => Before::Import,
        Decl::Global(_) => Before::Global,
        Decl::Record(_) => Before::Other,
        Decl::Method(_) => Before::Other,
    }
}

/// What stands between two declarations of these kinds: an empty line, but not between two imports or two globals.
fn gap_between(before: Before, kind: Before) -> Gap
    ensures { gap_seen result ≡ gap_of before kind }
{
    match before {
        Before::Nothing => Gap::None,
        Before::Import => match kind {
            Before::Import => Gap::Indent(0),
            _ => Gap::Line(0),
        },
        Before::Global => match kind {
            Before::Global => Gap::Indent(0),
            _ => Gap::Line(0),
        },
        Before::Other => Gap::Line(0),
    }
}

/// Adds declarations, with a newline behind each.
fn add_file(decls: &[Decl], light: bool, text: &mut Vec<u8>) -> Result<(), NoMemory>
    ensures { OnOk result (Adds text.old.items text.new.items (file_pieces (file_account light (map decl_tree decls.now)))) }
{
    let mut before = Before::Nothing;
    for decl in decls {
        let kind = kind_of(decl);
        add_decl(decl, gap_between(before, kind), light, text)?;
        add_text("\n", text)?;
        before = kind;
    }
    Ok(())
}

/// Whether the tokens of a text end at one that nests too deep.
fn ends_deep(end: TokensEnd) -> bool
    ensures { result ≡ ends_deep end }
{
    match end {
        TokensEnd::End(_) => false,
        TokensEnd::Fault(fault) => fault.code == NESTS_TOO_DEEP,
    }
}

/// Whether a text nests too deep to be read.
fn is_too_deep(alloc: Global, text: &str) -> Result<bool, NoMemory>
    ensures { IfOk result (λ deep. Tells deep text.now) }
{
    let tokens = read_tokens(alloc, text)?;
    Ok(ends_deep(tokens.end))
}

/// Whether bytes are a text that nests too deep to be read.
fn nests_too_deep(alloc: Global, bytes: &[u8]) -> Result<bool, NoMemory>
    ensures { IfOk result (λ deep. Tells deep bytes.now) }
{
    match std::str::from_utf8(bytes) {
        Ok(text) => is_too_deep(alloc, text),
        Err(_) => Ok(false),
    }
}

/// Puts what is printed of declarations in place of a text.
pub(crate) fn write_file(alloc: Global, decls: &[Decl], text: &mut Vec<u8>) -> Result<(), NoMemory>
    ensures { OnOk result (IsPrinted (map decl_tree decls.now) text.new.items) }
{
    text.clear();
    add_file(decls, false, text)?;
    if nests_too_deep(alloc, text.as_slice())? {
        text.clear();
        add_file(decls, true, text)?;
    }
    Ok(())
}
