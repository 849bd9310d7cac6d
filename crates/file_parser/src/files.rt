ghost use Rattle.std.specs.Prelude.{◌≡◌, ◌<◌, ◌≤◌, List, [], map, length, OnOk, IfOk, IfErr, MatchBool};
ghost use Rattle.slang_tree.specs.DeclTree.{DeclTree, decl_tree};
ghost use Rattle.slang_machine.specs.States.{top, ended};
ghost use Rattle.token_cursor.specs.Outcome.{outcome, read};
ghost use Rattle.token_cursor.specs.Gives.{ahead, IfRefused, Moves, Refuses};

use crate::declarations::declaration;
use slang_lexer::TokenKind;
use slang_tree::Decl;
use sqlite_items::Items;
use std::alloc::Global;
use token_cursor::{Cursor, Due, Stop, kept};

/// The declarations of a text, read up to its end.
pub fn all_declarations(alloc: Global, tokens: &mut Cursor<'_, '_>) -> Result<Items<Decl>, Stop>
    ensures read { IfOk result (λ decls. outcome (top []) (ahead tokens.old) ≡ read (map decl_tree decls)) }
    ensures refused { IfErr result (λ stop. IfRefused stop (λ due. Refuses tokens.old (top []) tokens.new due)) }
{
    let mut items = Items::new(alloc);
    let end = add_declarations(alloc, &mut items, tokens);
    kept(items, end)
}

/// Adds the declarations of a text up to its end.
fn add_declarations(
    alloc: Global,
    items: &mut Items<Decl>,
    tokens: &mut Cursor<'_, '_>,
) -> Result<(), Stop>
    ensures reads { OnOk result (outcome (top (map decl_tree items.old)) (ahead tokens.old) ≡ read (map decl_tree items.new)) }
    ensures refused { IfErr result (λ stop. IfRefused stop (λ due. Refuses tokens.old (top (map decl_tree items.old)) tokens.new due)) }
{
    let mut more = !is_over(tokens);
    'declarations: while more {
        let member = declaration(alloc, tokens)?;
        items.push(member)?;
        more = next_line(tokens)?;
    }
    Ok(())
}

/// Whether no token comes.
fn is_over(tokens: &Cursor<'_, '_>) -> bool
    ensures { MatchBool result (ahead tokens.now ≡ []) (0 < length (ahead tokens.now)) }
{
    match tokens.first() {
        Some(_) => false,
        None => true,
    }
}

/// Behind a declaration, goes behind the newline, which comes but for the end, and tells whether more comes.
fn next_line(tokens: &mut Cursor<'_, '_>) -> Result<bool, Stop>
    ensures reads { IfOk result (λ more. (done : List DeclTree) → Moves tokens.old (ended done) tokens.new (top done)) }
    ensures over { IfOk result (λ more. MatchBool more (0 < length (ahead tokens.new)) (ahead tokens.new ≡ [])) }
    ensures no_longer { OnOk result (length (ahead tokens.new) ≤ length (ahead tokens.old)) }
    ensures refused { IfErr result (λ stop. IfRefused stop (λ due. (done : List DeclTree) → Refuses tokens.old (ended done) tokens.new due)) }
{
    if is_over(tokens) {
        return Ok(false);
    }
    if tokens.take(TokenKind::Newline) {
        return Ok(!is_over(tokens));
    }
    Err(Stop::Refused(Due::Other))
}
