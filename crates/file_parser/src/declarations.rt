ghost use Rattle.std.specs.Prelude.{◌≡◌, ◌<◌, ◌≤◌, List, [], ◌∷◌, ◌++◌, Option, Bool, map, length, IfOk, IfErr, OnOk};
ghost use Rattle.std.specs.Option.{option_map};
ghost use Rattle.slang_tree.specs.declared.place.Place.{Place as ThePlace};
ghost use Rattle.slang_tree.specs.declared.expression.Name.{Name as TheName};
ghost use Rattle.slang_tree.specs.declared.declaration.Const.{Const as TheConst};
ghost use Rattle.slang_tree.specs.declared.declaration.FieldDecl.{FieldDecl as TheField};
ghost use Rattle.slang_tree.specs.TypeTree.{type_tree};
ghost use Rattle.slang_tree.specs.DeclTree as d;
ghost use Rattle.slang_tree.specs.DeclTree.{DeclTree, const_tree, field_tree, global_decl_tree, record_decl_tree, decl_tree};
ghost use Rattle.slang_tokens.specs.Tok.{tok};
ghost use Rattle.slang_machine.specs.Open.{constant_of};
ghost use Rattle.slang_machine.specs.States.{top, ended, path_due, global_name, global_type, want_const, at_due, class_due, fields_due, naming};
ghost use Rattle.slang_machine.specs.Declarations.{is_datatype};
ghost use Rattle.token_cursor.specs.Outcome.{outcome};
ghost use Rattle.token_cursor.specs.Gives.{ahead, IfRefused, Moves, Refuses};
ghost use Rattle.file_parser.specs.Heads.{decl_head_of, behind_decl_head};

use crate::lists::{fields, path};
use constant_parser::constant;
use expression_parser::beside;
use method_parser::method;
use owned_results::{all_three, both};
use slang_lexer::TokenKind;
use slang_tokens::Lexeme;
use slang_tree::{Const, Decl, FieldDecl, GlobalDecl, Name, Place, RecordDecl, TypeName};
use sqlite_items::Items;
use std::alloc::Global;
use token_cursor::{Cursor, Due, Stop, is, kept, name, optional_type};

/// The word or sign that a declaration begins with.
#[derive(Clone, Copy)]
enum DeclHead {
    Import,
    /// `val`, which is fixed, or `var`.
    Value(bool),
    At,
    Def,
}

/// What a token begins where a declaration may come.
fn decl_head_of(token: &Lexeme<'_>) -> Option<DeclHead>
    ensures { result ≡ decl_head_of (tok token.now) }
{
    if is(TokenKind::Import, token) {
        return Some(DeclHead::Import);
    }
    if is(TokenKind::Val, token) {
        return Some(DeclHead::Value(true));
    }
    if is(TokenKind::Var, token) {
        return Some(DeclHead::Value(false));
    }
    if is(TokenKind::At, token) {
        return Some(DeclHead::At);
    }
    is(TokenKind::Def, token).then_some(DeclHead::Def)
}

/// Goes behind the token that begins a declaration, which is due, and tells what it begins.
fn begin_decl<'t, 'a>(tokens: &mut Cursor<'t, 'a>) -> Result<(DeclHead, &'t Lexeme<'a>), Stop>
    ensures reads { IfOk result (λ r. (done : List DeclTree) → outcome (top done) (ahead tokens.old) ≡ outcome (behind_decl_head done (tok r.1.now) r.0) (ahead tokens.new)) }
    ensures shorter { OnOk result (length (ahead tokens.new) < length (ahead tokens.old)) }
    ensures refused { IfErr result (λ stop. IfRefused stop (λ due. (done : List DeclTree) → 0 < length (ahead tokens.old) → Refuses tokens.old (top done) tokens.new due)) }
{
    let Some(token) = tokens.first() else {
        return Err(Stop::Refused(Due::Other));
    };
    let Some(head) = decl_head_of(token) else {
        return Err(Stop::Refused(Due::Other));
    };
    tokens.advance();
    Ok((head, token))
}

/// An import, from behind its word on.
fn import(alloc: Global, place: Place, tokens: &mut Cursor<'_, '_>) -> Result<Decl, Stop>
    ensures reads { IfOk result (λ decl. (done : List DeclTree) → Moves tokens.old (path_due place [] done) tokens.new (ended (done ++ decl_tree decl ∷ []))) }
    ensures no_longer { OnOk result (length (ahead tokens.new) ≤ length (ahead tokens.old)) }
    ensures refused { IfErr result (λ stop. IfRefused stop (λ due. (done : List DeclTree) → Refuses tokens.old (path_due place [] done) tokens.new due)) }
{
    let path = path(alloc, tokens)?;
    Ok(Decl::Import { place, path })
}

/// A global of its parts.
fn global_of(
    fixed: bool,
    place: Place,
    name: Name,
    ty: Option<TypeName>,
    init: Result<Const, Stop>,
) -> Result<GlobalDecl, Stop>
    ensures made { IfOk result (λ made. (read : TheConst) × (init ≡ Ok read)
        × (global_decl_tree made ≡ record { place = place; fixed = fixed; written = name; ty = option_map type_tree ty; init = const_tree read })) }
    ensures refused { IfErr result (λ stop. IfRefused stop (λ due. init ≡ Err stop)) }
{
    let (name, ty, init) = all_three(Ok(name), Ok(ty), init)?;
    Ok(GlobalDecl {
        place,
        fixed,
        name,
        ty,
        init,
    })
}

/// The type of a global, which may be left out, and the sign behind it.
fn global_type(alloc: Global, tokens: &mut Cursor<'_, '_>) -> Result<Option<TypeName>, Stop>
    ensures reads { IfOk result (λ ty. (fixed : Bool) (place : ThePlace) (written : TheName) (done : List DeclTree) →
        Moves tokens.old (global_type fixed place written done) tokens.new (want_const (constant_of fixed place written (option_map type_tree ty) done))) }
    ensures shorter { OnOk result (length (ahead tokens.new) < length (ahead tokens.old)) }
    ensures refused { IfErr result (λ stop. IfRefused stop (λ due. (fixed : Bool) (place : ThePlace) (written : TheName) (done : List DeclTree) →
        Refuses tokens.old (global_type fixed place written done) tokens.new due)) }
{
    let ty = optional_type(alloc, tokens)?;
    kept(ty, tokens.expect(TokenKind::Equals))
}

/// The name and the type of a global, up to the sign behind them.
fn global_head(alloc: Global, tokens: &mut Cursor<'_, '_>) -> Result<(Name, Option<TypeName>), Stop>
    ensures reads { IfOk result (λ read. (fixed : Bool) (place : ThePlace) (done : List DeclTree) →
        Moves tokens.old (global_name fixed place done) tokens.new (want_const (constant_of fixed place read.0 (option_map type_tree read.1) done))) }
    ensures shorter { OnOk result (length (ahead tokens.new) < length (ahead tokens.old)) }
    ensures refused { IfErr result (λ stop. IfRefused stop (λ due. (fixed : Bool) (place : ThePlace) (done : List DeclTree) → Refuses tokens.old (global_name fixed place done) tokens.new due)) }
{
    let name = name(alloc, tokens)?;
    beside(name, global_type(alloc, tokens))
}

/// A global, from behind its word on.
fn global(
    alloc: Global,
    fixed: bool,
    place: Place,
    tokens: &mut Cursor<'_, '_>,
) -> Result<GlobalDecl, Stop>
    ensures reads { IfOk result (λ decl. (done : List DeclTree) → Moves tokens.old (global_name fixed place done) tokens.new (ended (done ++ d.global_decl (global_decl_tree decl) ∷ []))) }
    ensures shorter { OnOk result (length (ahead tokens.new) < length (ahead tokens.old)) }
    ensures refused { IfErr result (λ stop. IfRefused stop (λ due. (done : List DeclTree) → Refuses tokens.old (global_name fixed place done) tokens.new due)) }
{
    let (name, ty) = global_head(alloc, tokens)?;
    global_of(fixed, place, name, ty, constant(alloc, tokens))
}

/// Whether the token is the word `datatype`.
fn is_datatype(token: &Lexeme<'_>) -> bool
    ensures { result ≡ is_datatype (tok token.now) }
{
    token.kind == TokenKind::Name && token.text == "datatype"
}

/// The word `datatype`, which is due.
fn datatype(tokens: &mut Cursor<'_, '_>) -> Result<(), Stop>
    ensures reads { OnOk result ((place : ThePlace) (done : List DeclTree) → Moves tokens.old (at_due place done) tokens.new (class_due place done)) }
    ensures shorter { OnOk result (length (ahead tokens.new) < length (ahead tokens.old)) }
    ensures refused { IfErr result (λ stop. IfRefused stop (λ due. (place : ThePlace) (done : List DeclTree) → Refuses tokens.old (at_due place done) tokens.new due)) }
{
    let Some(token) = tokens.first() else {
        return Err(Stop::Refused(Due::Other));
    };
    if !is_datatype(token) {
        return Err(Stop::Refused(Due::Other));
    }
    tokens.advance();
    Ok(())
}

/// The words `datatype class`, and the name of a record.
fn record_name(alloc: Global, tokens: &mut Cursor<'_, '_>) -> Result<Name, Stop>
    ensures reads { IfOk result (λ written. (place : ThePlace) (done : List DeclTree) → Moves tokens.old (at_due place done) tokens.new (fields_due place written done)) }
    ensures shorter { OnOk result (length (ahead tokens.new) < length (ahead tokens.old)) }
    ensures refused { IfErr result (λ stop. IfRefused stop (λ due. (place : ThePlace) (done : List DeclTree) → Refuses tokens.old (at_due place done) tokens.new due)) }
{
    datatype(tokens)?;
    tokens.expect(TokenKind::Class)?;
    name(alloc, tokens)
}

/// A record of its parts.
fn record_of(
    place: Place,
    name: Name,
    fields: Result<Items<FieldDecl>, Stop>,
) -> Result<RecordDecl, Stop>
    ensures made { IfOk result (λ made. (read : List TheField) × (fields ≡ Ok read)
        × (record_decl_tree made ≡ record { place = place; written = name; fields = map field_tree read })) }
    ensures refused { IfErr result (λ stop. IfRefused stop (λ due. fields ≡ Err stop)) }
{
    let (name, fields) = both(Ok(name), fields)?;
    Ok(RecordDecl {
        place,
        name,
        fields,
    })
}

/// A record, from behind its `@` on.
fn datatype_class(
    alloc: Global,
    place: Place,
    tokens: &mut Cursor<'_, '_>,
) -> Result<RecordDecl, Stop>
    ensures reads { IfOk result (λ decl. (done : List DeclTree) → Moves tokens.old (at_due place done) tokens.new (ended (done ++ d.record_decl (record_decl_tree decl) ∷ []))) }
    ensures shorter { OnOk result (length (ahead tokens.new) < length (ahead tokens.old)) }
    ensures refused { IfErr result (λ stop. IfRefused stop (λ due. (done : List DeclTree) → Refuses tokens.old (at_due place done) tokens.new due)) }
{
    let name = record_name(alloc, tokens)?;
    record_of(place, name, fields(alloc, tokens))
}

/// A global as a declaration.
fn global_decl(
    alloc: Global,
    fixed: bool,
    place: Place,
    tokens: &mut Cursor<'_, '_>,
) -> Result<Decl, Stop>
    ensures reads { IfOk result (λ decl. (done : List DeclTree) → Moves tokens.old (global_name fixed place done) tokens.new (ended (done ++ decl_tree decl ∷ []))) }
    ensures shorter { OnOk result (length (ahead tokens.new) < length (ahead tokens.old)) }
    ensures refused { IfErr result (λ stop. IfRefused stop (λ due. (done : List DeclTree) → Refuses tokens.old (global_name fixed place done) tokens.new due)) }
{
    let decl = global(alloc, fixed, place, tokens)?;
    Ok(Decl::Global(decl))
}

/// A record as a declaration.
fn record_decl(alloc: Global, place: Place, tokens: &mut Cursor<'_, '_>) -> Result<Decl, Stop>
    ensures reads { IfOk result (λ decl. (done : List DeclTree) → Moves tokens.old (at_due place done) tokens.new (ended (done ++ decl_tree decl ∷ []))) }
    ensures shorter { OnOk result (length (ahead tokens.new) < length (ahead tokens.old)) }
    ensures refused { IfErr result (λ stop. IfRefused stop (λ due. (done : List DeclTree) → Refuses tokens.old (at_due place done) tokens.new due)) }
{
    let decl = datatype_class(alloc, place, tokens)?;
    Ok(Decl::Record(decl))
}

/// A method as a declaration.
fn method_decl(alloc: Global, tokens: &mut Cursor<'_, '_>) -> Result<Decl, Stop>
    ensures reads { IfOk result (λ decl. (done : List DeclTree) → Moves tokens.old (naming done) tokens.new (ended (done ++ decl_tree decl ∷ []))) }
    ensures shorter { OnOk result (length (ahead tokens.new) < length (ahead tokens.old)) }
    ensures refused { IfErr result (λ stop. IfRefused stop (λ due. (done : List DeclTree) → Refuses tokens.old (naming done) tokens.new due)) }
{
    let decl = method(alloc, tokens)?;
    Ok(Decl::Method(decl))
}

/// A declaration, from behind the token that begins it.
fn declaration_behind(
    alloc: Global,
    head: DeclHead,
    token: &Lexeme<'_>,
    tokens: &mut Cursor<'_, '_>,
) -> Result<Decl, Stop>
    ensures reads { IfOk result (λ decl. (done : List DeclTree) → Moves tokens.old (behind_decl_head done (tok token.now) head) tokens.new (ended (done ++ decl_tree decl ∷ []))) }
    ensures no_longer { OnOk result (length (ahead tokens.new) ≤ length (ahead tokens.old)) }
    ensures refused { IfErr result (λ stop. IfRefused stop (λ due. (done : List DeclTree) → Refuses tokens.old (behind_decl_head done (tok token.now) head) tokens.new due)) }
{
    match head {
        DeclHead::Import => import(alloc, token.place, tokens),
        DeclHead::Value(fixed) => global_decl(alloc, fixed, token.place, tokens),
        DeclHead::At => record_decl(alloc, token.place, tokens),
        DeclHead::Def => method_decl(alloc, tokens),
    }
}

/// A declaration, which is due.
pub fn declaration(alloc: Global, tokens: &mut Cursor<'_, '_>) -> Result<Decl, Stop>
    ensures reads { IfOk result (λ decl. (done : List DeclTree) → Moves tokens.old (top done) tokens.new (ended (done ++ decl_tree decl ∷ []))) }
    ensures shorter { OnOk result (length (ahead tokens.new) < length (ahead tokens.old)) }
    ensures refused { IfErr result (λ stop. IfRefused stop (λ due. (done : List DeclTree) → 0 < length (ahead tokens.old) → Refuses tokens.old (top done) tokens.new due)) }
{
    let (head, token) = begin_decl(tokens)?;
    declaration_behind(alloc, head, token, tokens)
}
