ghost use Rattle.std.specs.Prelude.{◌≡◌, ◌<◌, ◌≤◌, List, [], ◌∷◌, ◌++◌, map, length, IfOk, IfErr, OnOk, false};
ghost use Rattle.slang_lexer.specs.declared.token.TokenKind.TheVariants as kind;
ghost use Rattle.slang_tree.specs.declared.place.Place.{Place as ThePlace};
ghost use Rattle.slang_tree.specs.declared.expression.Name.{Name as TheName};
ghost use Rattle.slang_tree.specs.DeclTree.{TypedName, DeclTree, field_tree};
ghost use Rattle.slang_machine.specs.States.{path_due, path_end, fields_due, field_name, field_end};
ghost use Rattle.slang_machine.specs.Declarations.{end_record};
ghost use Rattle.token_cursor.specs.Gives.{ahead, IfRefused, Moves, Refuses};
ghost use Rattle.token_cursor.specs.Lists.{begins};
ghost use Rattle.statement_parser.specs.Expects.{NoEnd};
ghost use Rattle.file_parser.specs.Expects.{field_state};

use method_parser::typed_name;
use slang_lexer::TokenKind;
use slang_tree::{FieldDecl, Name};
use sqlite_items::Items;
use std::alloc::Global;
use token_cursor::{Cursor, Due, Stop, is, kept, name, name_of};

/// The names of an import, parted by dots.
pub fn path(alloc: Global, tokens: &mut Cursor<'_, '_>) -> Result<Items<Name>, Stop>
    ensures reads { IfOk result (λ names. (place : ThePlace) (done : List DeclTree) → Moves tokens.old (path_due place [] done) tokens.new (path_end place names done)) }
    ensures ends { OnOk result (begins kind.Dot (ahead tokens.new) ≡ false) }
    ensures no_longer { OnOk result (length (ahead tokens.new) ≤ length (ahead tokens.old)) }
    ensures refused { IfErr result (λ stop. IfRefused stop (λ due. (place : ThePlace) (done : List DeclTree) → Refuses tokens.old (path_due place [] done) tokens.new due)) }
{
    let mut list = Items::new(alloc);
    let end = add_names(alloc, &mut list, tokens);
    kept(list, end)
}

/// Adds the names of an import.
fn add_names(alloc: Global, list: &mut Items<Name>, tokens: &mut Cursor<'_, '_>) -> Result<(), Stop>
    ensures reads { OnOk result ((place : ThePlace) (done : List DeclTree) → Moves tokens.old (path_due place list.old done) tokens.new (path_end place list.new done)) }
    ensures ends { OnOk result (begins kind.Dot (ahead tokens.new) ≡ false) }
    ensures no_longer { OnOk result (length (ahead tokens.new) ≤ length (ahead tokens.old)) }
    ensures refused { IfErr result (λ stop. IfRefused stop (λ due. (place : ThePlace) (done : List DeclTree) → Refuses tokens.old (path_due place list.old done) tokens.new due)) }
{
    let mut more = true;
    'names: while more {
        let member = any_name(alloc, tokens)?;
        list.push(member)?;
        more = tokens.take(TokenKind::Dot);
    }
    Ok(())
}

/// A name, which is due, and may be `_`.
fn any_name(alloc: Global, tokens: &mut Cursor<'_, '_>) -> Result<Name, Stop>
    ensures reads { IfOk result (λ name. (place : ThePlace) (path : List TheName) (done : List DeclTree) → Moves tokens.old (path_due place path done) tokens.new (path_end place (path ++ name ∷ []) done)) }
    ensures shorter { OnOk result (length (ahead tokens.new) < length (ahead tokens.old)) }
    ensures refused { IfErr result (λ stop. IfRefused stop (λ due. (place : ThePlace) (path : List TheName) (done : List DeclTree) → Refuses tokens.old (path_due place path done) tokens.new due)) }
{
    let Some(token) = tokens.first() else {
        return Err(Stop::Refused(Due::Other));
    };
    if !is(TokenKind::Name, token) {
        return Err(Stop::Refused(Due::Other));
    }
    tokens.advance();
    Ok(name_of(alloc, token)?)
}

/// A field, which is due.
fn field(alloc: Global, tokens: &mut Cursor<'_, '_>) -> Result<FieldDecl, Stop>
    ensures reads { IfOk result (λ field. (place : ThePlace) (written : TheName) (fields : List TypedName) (done : List DeclTree) → NoEnd fields (ahead tokens.old)
        → Moves tokens.old (field_state place written fields done) tokens.new (field_end place written (fields ++ field_tree field ∷ []) done)) }
    ensures shorter { OnOk result (length (ahead tokens.new) < length (ahead tokens.old)) }
    ensures refused { IfErr result (λ stop. IfRefused stop (λ due. (place : ThePlace) (written : TheName) (fields : List TypedName) (done : List DeclTree) → NoEnd fields (ahead tokens.old)
        → Refuses tokens.old (field_state place written fields done) tokens.new due)) }
{
    tokens.take(TokenKind::Val);
    let (name, ty) = typed_name(alloc, tokens)?;
    Ok(FieldDecl { name, ty })
}

/// Fields in round brackets, one at least.
pub fn fields(alloc: Global, tokens: &mut Cursor<'_, '_>) -> Result<Items<FieldDecl>, Stop>
    ensures reads { IfOk result (λ fields. (place : ThePlace) (written : TheName) (done : List DeclTree) →
        Moves tokens.old (fields_due place written done) tokens.new (end_record place written (map field_tree fields) done)) }
    ensures shorter { OnOk result (length (ahead tokens.new) < length (ahead tokens.old)) }
    ensures refused { IfErr result (λ stop. IfRefused stop (λ due. (place : ThePlace) (written : TheName) (done : List DeclTree) → Refuses tokens.old (fields_due place written done) tokens.new due)) }
{
    tokens.expect(TokenKind::LeftParen)?;
    let mut list = Items::new(alloc);
    let end = add_fields(alloc, &mut list, tokens);
    kept(list, end)
}

/// Adds the fields of a list, one at least, up to its closing bracket.
fn add_fields(
    alloc: Global,
    list: &mut Items<FieldDecl>,
    tokens: &mut Cursor<'_, '_>,
) -> Result<(), Stop>
    requires { list.old ≡ [] }
    ensures reads { OnOk result ((place : ThePlace) (written : TheName) (done : List DeclTree) →
        Moves tokens.old (field_name place written [] done) tokens.new (end_record place written (map field_tree list.new) done)) }
    ensures no_longer { OnOk result (length (ahead tokens.new) ≤ length (ahead tokens.old)) }
    ensures refused { IfErr result (λ stop. IfRefused stop (λ due. (place : ThePlace) (written : TheName) (done : List DeclTree) → Refuses tokens.old (field_name place written [] done) tokens.new due)) }
{
    let mut more = true;
    'fields: while more {
        let member = field(alloc, tokens)?;
        list.push(member)?;
        more = tokens.goes_on(TokenKind::Comma, TokenKind::RightParen)?;
    }
    Ok(())
}
