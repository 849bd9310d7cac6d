ghost use Rattle.std.specs.Prelude.{◌≡◌, ◌<◌, ◌≤◌, [], length, Some, IfOk, IfErr, OnOk};
ghost use Rattle.slang_tree.specs.declared.expression.Name.{Name as TheName};
ghost use Rattle.slang_tree.specs.declared.statement.Label.{Label as TheLabel};
ghost use Rattle.slang_tree.specs.ExprTree.{ExprTree};
ghost use Rattle.slang_tokens.specs.Tok.{tok};
ghost use Rattle.slang_machine.specs.Open.{Labelled};
ghost use Rattle.slang_machine.specs.States.{State, by_due, rule_due, cites_or_end, cite_due, step_end, sub_left, let_left, let_colon};
ghost use Rattle.slang_machine.specs.Statements.{label_of, rule_of, with_line};
ghost use Rattle.token_cursor.specs.Gives.{ahead, IfRefused, Moves, Refuses};
ghost use Rattle.statement_parser.specs.Expects.{ExpectsLabel};

use slang_lexer::TokenKind;
use slang_tokens::Lexeme;
use slang_tree::{Label, Name, Text};
use sqlite_items::Items;
use std::alloc::{AllocError, Global};
use token_cursor::{Cursor, Due, Stop, is, is_name, kept, name_of, number_of};

/// The label that a token is.
fn label_of(token: &Lexeme<'_>) -> Option<Label>
    ensures { result ≡ label_of (tok token.now) }
{
    let value = number_of(token)?;
    match u32::try_from(value) {
        Ok(number) => Some(Label {
            place: token.place,
            number,
        }),
        Err(_) => None,
    }
}

/// A label, which is due.
pub fn label(tokens: &mut Cursor<'_, '_>) -> Result<Label, Stop>
    ensures reads { IfOk result (λ label. (from : State) (to : TheLabel → State) → ExpectsLabel (ahead tokens.old) from to → Moves tokens.old from tokens.new (to label)) }
    ensures shorter { OnOk result (length (ahead tokens.new) < length (ahead tokens.old)) }
    ensures refused { IfErr result (λ stop. IfRefused stop (λ due. (from : State) (to : TheLabel → State) → ExpectsLabel (ahead tokens.old) from to → Refuses tokens.old from tokens.new due)) }
{
    let Some(token) = tokens.first() else {
        return Err(Stop::Refused(Due::Label));
    };
    let Some(label) = label_of(token) else {
        return Err(Stop::Refused(Due::Label));
    };
    tokens.advance();
    Ok(label)
}

/// The rule of deduction that a token is.
fn rule_of(alloc: Global, token: &Lexeme<'_>) -> Result<Option<Name>, AllocError>
    ensures { IfOk result (λ rule. rule ≡ rule_of (tok token.now)) }
{
    if is_name(token) {
        return Ok(Some(name_of(alloc, token)?));
    }
    if is(TokenKind::SubstLess, token) {
        return Ok(Some(written(alloc, "Subst_<", token)?));
    }
    if is(TokenKind::SubstGreater, token) {
        return Ok(Some(written(alloc, "Subst_>", token)?));
    }
    Ok(None)
}

/// A name of this text, at the place of the token.
fn written(alloc: Global, text: &str, token: &Lexeme<'_>) -> Result<Name, AllocError>
    ensures { IfOk result (λ name. name ≡ record { text = text.now; place = token.now.place }) }
{
    Ok(Name {
        text: Text::from_str(alloc, text)?,
        place: token.place,
    })
}

/// A rule, which is due.
fn rule(alloc: Global, tokens: &mut Cursor<'_, '_>) -> Result<Name, Stop>
    ensures reads { IfOk result (λ rule. (claim : ExprTree) (at : Labelled) → Moves tokens.old (rule_due claim at) tokens.new (cites_or_end claim rule at)) }
    ensures shorter { OnOk result (length (ahead tokens.new) < length (ahead tokens.old)) }
    ensures refused { IfErr result (λ stop. IfRefused stop (λ due. (claim : ExprTree) (at : Labelled) → Refuses tokens.old (rule_due claim at) tokens.new due)) }
{
    let Some(token) = tokens.first() else {
        return Err(Stop::Refused(Due::Other));
    };
    let found = rule_of(alloc, token)?;
    let Some(rule) = found else {
        return Err(Stop::Refused(Due::Other));
    };
    tokens.advance();
    Ok(rule)
}

/// `by`, and the rule behind it.
pub fn by_rule(alloc: Global, tokens: &mut Cursor<'_, '_>) -> Result<Name, Stop>
    ensures reads { IfOk result (λ rule. (claim : ExprTree) (at : Labelled) → Moves tokens.old (by_due claim at) tokens.new (cites_or_end claim rule at)) }
    ensures shorter { OnOk result (length (ahead tokens.new) < length (ahead tokens.old)) }
    ensures refused { IfErr result (λ stop. IfRefused stop (λ due. (claim : ExprTree) (at : Labelled) → Refuses tokens.old (by_due claim at) tokens.new due)) }
{
    tokens.expect(TokenKind::By)?;
    rule(alloc, tokens)
}

/// The labels that a step cites, in round brackets, where any stand there.
pub fn cites(alloc: Global, tokens: &mut Cursor<'_, '_>) -> Result<Items<Label>, Stop>
    ensures reads { IfOk result (λ cites. (claim : ExprTree) (rule : TheName) (at : Labelled) → Moves tokens.old (cites_or_end claim rule at) tokens.new (step_end (with_line claim rule cites at) at.around)) }
    ensures no_longer { OnOk result (length (ahead tokens.new) ≤ length (ahead tokens.old)) }
    ensures refused { IfErr result (λ stop. IfRefused stop (λ due. (claim : ExprTree) (rule : TheName) (at : Labelled) → Refuses tokens.old (cites_or_end claim rule at) tokens.new due)) }
{
    let mut list = Items::new(alloc);
    if !tokens.take(TokenKind::LeftParen) {
        return Ok(list);
    }
    let end = add_labels(&mut list, tokens);
    kept(list, end)
}

/// Adds the labels of a list, one at least, up to its closing bracket.
fn add_labels(list: &mut Items<Label>, tokens: &mut Cursor<'_, '_>) -> Result<(), Stop>
    requires { list.old ≡ [] }
    ensures reads { OnOk result ((claim : ExprTree) (rule : TheName) (at : Labelled) → Moves tokens.old (cite_due claim rule at) tokens.new (step_end (with_line claim rule list.new at) at.around)) }
    ensures no_longer { OnOk result (length (ahead tokens.new) ≤ length (ahead tokens.old)) }
    ensures refused { IfErr result (λ stop. IfRefused stop (λ due. (claim : ExprTree) (rule : TheName) (at : Labelled) → Refuses tokens.old (cite_due claim rule at) tokens.new due)) }
{
    let mut more = true;
    'members: while more {
        let member = label(tokens)?;
        list.push(member)?;
        more = tokens.goes_on(TokenKind::Comma, TokenKind::RightParen)?;
    }
    Ok(())
}

/// What stands in front of the steps of a `Let`: `((name: Z) => SubProof`.
pub fn let_variable(alloc: Global, tokens: &mut Cursor<'_, '_>) -> Result<Name, Stop>
    ensures reads { IfOk result (λ variable. (at : Labelled) → Moves tokens.old (let_left at) tokens.new (sub_left (Some variable) at)) }
    ensures shorter { OnOk result (length (ahead tokens.new) < length (ahead tokens.old)) }
    ensures refused { IfErr result (λ stop. IfRefused stop (λ due. (at : Labelled) → Refuses tokens.old (let_left at) tokens.new due)) }
{
    tokens.expect(TokenKind::LeftParen)?;
    tokens.expect(TokenKind::LeftParen)?;
    let variable = token_cursor::name(alloc, tokens)?;
    kept(variable, let_arrow(tokens))
}

/// `: Z) => SubProof`.
fn let_arrow(tokens: &mut Cursor<'_, '_>) -> Result<(), Stop>
    ensures reads { OnOk result ((variable : TheName) (at : Labelled) → Moves tokens.old (let_colon variable at) tokens.new (sub_left (Some variable) at)) }
    ensures shorter { OnOk result (length (ahead tokens.new) < length (ahead tokens.old)) }
    ensures refused { IfErr result (λ stop. IfRefused stop (λ due. (variable : TheName) (at : Labelled) → Refuses tokens.old (let_colon variable at) tokens.new due)) }
{
    tokens.expect(TokenKind::Colon)?;
    tokens.expect(TokenKind::TypeZ)?;
    tokens.expect(TokenKind::RightParen)?;
    tokens.expect(TokenKind::FatArrow)?;
    tokens.expect(TokenKind::SubProof)
}
