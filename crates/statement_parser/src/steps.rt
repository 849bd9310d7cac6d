ghost use Rattle.std.specs.Prelude.{◌≡◌, ◌<◌, ◌≤◌, List, [], ◌∷◌, ◌++◌, map, length, Option, Some, IfOk, IfErr, OnOk};
ghost use Rattle.slang_lexer.specs.declared.token.TokenKind.TheVariants as kind;
ghost use Rattle.slang_tree.specs.declared.expression.Name.{Name as TheName};
ghost use Rattle.slang_tree.specs.declared.statement.Label.{Label as TheLabel};
ghost use Rattle.slang_tree.specs.declared.statement.Step.{Step as TheStep};
ghost use Rattle.slang_tree.specs.ExprTree.{ExprTree, expr_tree};
ghost use Rattle.slang_tree.specs.StmtTree as s;
ghost use Rattle.slang_tree.specs.StmtTree.{StepTree, step_tree, steps_of};
ghost use Rattle.slang_machine.specs.Open.{Steps, Labelled, step_claim, assumed_in, alone as alone_for};
ghost use Rattle.slang_machine.specs.States.{State, want, step_due, step_end, sub_left, let_left, let_end, by_due};
ghost use Rattle.slang_machine.specs.Statements.{begin_step, end_steps, sub_steps, with_line};
ghost use Rattle.token_cursor.specs.Gives.{ahead, IfRefused, Moves, Refuses, Expects};
ghost use Rattle.statement_parser.specs.declared.steps.SubProof.{SubProof as TheSubProof};
ghost use Rattle.statement_parser.specs.Expects.{ExpectsLabel, StepsGoOn, labelled_in};

use crate::labels::{by_rule, cites, label, let_variable};
use expression_parser::{beside, closed_expression};
use owned_results::both;
use slang_lexer::TokenKind;
use slang_tree::{Expr, Label, Name, Step};
use sqlite_items::Items;
use std::alloc::Global;
use token_cursor::{Cursor, Stop, kept};

/// A SubProof behind its own label.
#[derive(Drop)]
struct SubProof {
    assumed: Label,
    assumption: Expr,
    steps: Items<Step>,
}

/// A step by a rule, of its claim, and of the rule and what it cites.
fn line_of(
    label: Label,
    claim: Expr,
    reason: Result<(Name, Items<Label>), Stop>,
) -> Result<Step, Stop>
    ensures made { IfOk result (λ step. (read : TheName × List TheLabel) × (reason ≡ Ok read) × (step_tree step ≡ s.line label (expr_tree claim) read.0 read.1)) }
    ensures refused { IfErr result (λ stop. IfRefused stop (λ due. reason ≡ Err stop)) }
{
    let (claim, reason) = both(Ok(claim), reason)?;
    let (rule, cites) = reason;
    Ok(Step::Line {
        label,
        claim,
        rule,
        cites,
    })
}

/// Why a step holds: its rule and what it cites.
fn reason(alloc: Global, tokens: &mut Cursor<'_, '_>) -> Result<(Name, Items<Label>), Stop>
    ensures reads { IfOk result (λ read. (claim : ExprTree) (at : Labelled) → Moves tokens.old (by_due claim at) tokens.new (step_end (with_line claim read.0 read.1 at) at.around)) }
    ensures shorter { OnOk result (length (ahead tokens.new) < length (ahead tokens.old)) }
    ensures refused { IfErr result (λ stop. IfRefused stop (λ due. (claim : ExprTree) (at : Labelled) → Refuses tokens.old (by_due claim at) tokens.new due)) }
{
    let rule = by_rule(alloc, tokens)?;
    beside(rule, cites(alloc, tokens))
}

/// A step by a rule, from behind the bracket that opens its claim.
fn line(alloc: Global, label: Label, tokens: &mut Cursor<'_, '_>) -> Result<Step, Stop>
    ensures reads { IfOk result (λ step. (steps : List StepTree) (around : Steps) →
        Moves tokens.old (want (alone_for (step_claim (labelled_in label steps around)))) tokens.new (step_end (steps ++ step_tree step ∷ []) around)) }
    ensures shorter { OnOk result (length (ahead tokens.new) < length (ahead tokens.old)) }
    ensures refused { IfErr result (λ stop. IfRefused stop (λ due. (steps : List StepTree) (around : Steps) →
        Refuses tokens.old (want (alone_for (step_claim (labelled_in label steps around)))) tokens.new due)) }
{
    let claim = closed_expression(alloc, tokens)?;
    line_of(label, claim, reason(alloc, tokens))
}

/// A SubProof with its label.
fn sub_of(label: Label, inside: Result<SubProof, Stop>) -> Result<Step, Stop>
    ensures made { IfOk result (λ step. (read : TheSubProof) × (inside ≡ Ok read) × (step_tree step ≡ s.block label read.assumed (expr_tree read.assumption) (steps_of (map step_tree read.steps)))) }
    ensures refused { IfErr result (λ stop. IfRefused stop (λ due. inside ≡ Err stop)) }
{
    let SubProof {
        assumed,
        assumption,
        steps,
    } = inside?;
    Ok(Step::Sub {
        label,
        assumed,
        assumption,
        steps,
    })
}

/// A Let with its label and its variable.
fn let_of(label: Label, name: Name, inside: Result<SubProof, Stop>) -> Result<Step, Stop>
    ensures made { IfOk result (λ step. (read : TheSubProof) × (inside ≡ Ok read) × (step_tree step ≡ s.let_block label name read.assumed (expr_tree read.assumption) (steps_of (map step_tree read.steps)))) }
    ensures refused { IfErr result (λ stop. IfRefused stop (λ due. inside ≡ Err stop)) }
{
    let (name, inside) = both(Ok(name), inside)?;
    let SubProof {
        assumed,
        assumption,
        steps,
    } = inside;
    Ok(Step::Let {
        label,
        name,
        assumed,
        assumption,
        steps,
    })
}

/// A SubProof of its parts.
fn sub_proof_of(
    assumed: Label,
    assumption: Expr,
    steps: Result<Items<Step>, Stop>,
) -> Result<SubProof, Stop>
    ensures made { IfOk result (λ made. (read : List TheStep) × (steps ≡ Ok read) × (made ≡ record { assumed = assumed; assumption = assumption; steps = read })) }
    ensures refused { IfErr result (λ stop. IfRefused stop (λ due. steps ≡ Err stop)) }
{
    let (assumption, steps) = both(Ok(assumption), steps)?;
    Ok(SubProof {
        assumed,
        assumption,
        steps,
    })
}

/// The label of an assumption, from the bracket before it up to the one that opens the assumption.
fn assumed_label(tokens: &mut Cursor<'_, '_>) -> Result<Label, Stop>
    ensures reads { IfOk result (λ assumed. (variable : Option TheName) (at : Labelled) → Moves tokens.old (sub_left variable at) tokens.new (want (alone_for (assumed_in variable assumed at)))) }
    ensures shorter { OnOk result (length (ahead tokens.new) < length (ahead tokens.old)) }
    ensures refused { IfErr result (λ stop. IfRefused stop (λ due. (variable : Option TheName) (at : Labelled) → Refuses tokens.old (sub_left variable at) tokens.new due)) }
{
    tokens.expect(TokenKind::LeftParen)?;
    let assumed = label(tokens)?;
    tokens.expect(TokenKind::Assume)?;
    tokens.expect(TokenKind::LeftParen)?;
    Ok(assumed)
}

/// A step, which is due.
#[cycle(steps)]
fn step(alloc: Global, tokens: &mut Cursor<'_, '_>) -> Result<Step, Stop>
    ensures reads { IfOk result (λ step. (from : State) (steps : List StepTree) (around : Steps) → ExpectsLabel (ahead tokens.old) from (begin_step steps around)
        → Moves tokens.old from tokens.new (step_end (steps ++ step_tree step ∷ []) around)) }
    ensures shorter { OnOk result (length (ahead tokens.new) < length (ahead tokens.old)) }
    ensures refused { IfErr result (λ stop. IfRefused stop (λ due. (from : State) (steps : List StepTree) (around : Steps) → ExpectsLabel (ahead tokens.old) from (begin_step steps around)
        → Refuses tokens.old from tokens.new due)) }
{
    let label = label(tokens)?;
    if tokens.take(TokenKind::LeftParen) {
        return line(alloc, label, tokens);
    }
    if tokens.take(TokenKind::SubProof) {
        return sub_of(label, sub_proof(alloc, tokens));
    }
    tokens.expect(TokenKind::Let)?;
    let_step(alloc, label, tokens)
}

/// A Let, from behind its word on.
#[cycle(steps)]
fn let_step(alloc: Global, label: Label, tokens: &mut Cursor<'_, '_>) -> Result<Step, Stop>
    ensures reads { IfOk result (λ step. (steps : List StepTree) (around : Steps) →
        Moves tokens.old (let_left (labelled_in label steps around)) tokens.new (step_end (steps ++ step_tree step ∷ []) around)) }
    ensures shorter { OnOk result (length (ahead tokens.new) < length (ahead tokens.old)) }
    ensures refused { IfErr result (λ stop. IfRefused stop (λ due. (steps : List StepTree) (around : Steps) →
        Refuses tokens.old (let_left (labelled_in label steps around)) tokens.new due)) }
{
    let variable = let_variable(alloc, tokens)?;
    let_of(label, variable, let_proof(alloc, tokens))
}

/// The inside of the SubProof of a Let, up to the bracket that closes the Let.
#[cycle(steps)]
fn let_proof(alloc: Global, tokens: &mut Cursor<'_, '_>) -> Result<SubProof, Stop>
    ensures reads { IfOk result (λ read. (variable : TheName) (at : Labelled) → Moves tokens.old (sub_left (Some variable) at)
        tokens.new (step_end (at.steps ++ s.let_block at.label variable read.assumed (expr_tree read.assumption) (steps_of (map step_tree read.steps)) ∷ []) at.around)) }
    ensures shorter { OnOk result (length (ahead tokens.new) < length (ahead tokens.old)) }
    ensures refused { IfErr result (λ stop. IfRefused stop (λ due. (variable : TheName) (at : Labelled) → Refuses tokens.old (sub_left (Some variable) at) tokens.new due)) }
{
    let inside = sub_proof(alloc, tokens)?;
    kept(inside, tokens.expect(TokenKind::RightParen))
}

/// The inside of a SubProof, from its opening bracket up to the closing one.
#[cycle(steps)]
fn sub_proof(alloc: Global, tokens: &mut Cursor<'_, '_>) -> Result<SubProof, Stop>
    ensures reads { IfOk result (λ read. (variable : Option TheName) (at : Labelled) →
        Moves tokens.old (sub_left variable at) tokens.new (end_steps (map step_tree read.steps) (sub_steps variable read.assumed (expr_tree read.assumption) at))) }
    ensures shorter { OnOk result (length (ahead tokens.new) < length (ahead tokens.old)) }
    ensures refused { IfErr result (λ stop. IfRefused stop (λ due. (variable : Option TheName) (at : Labelled) → Refuses tokens.old (sub_left variable at) tokens.new due)) }
{
    let assumed = assumed_label(tokens)?;
    let assumption = closed_expression(alloc, tokens)?;
    sub_proof_of(assumed, assumption, steps_behind(alloc, tokens))
}

/// The steps behind an assumption, up to the closing bracket.
#[cycle(steps)]
fn steps_behind(alloc: Global, tokens: &mut Cursor<'_, '_>) -> Result<Items<Step>, Stop>
    ensures reads { IfOk result (λ steps. (around : Steps) → Moves tokens.old (step_end [] around) tokens.new (end_steps (map step_tree steps) around)) }
    ensures shorter { OnOk result (length (ahead tokens.new) < length (ahead tokens.old)) }
    ensures refused { IfErr result (λ stop. IfRefused stop (λ due. (around : Steps) → Refuses tokens.old (step_end [] around) tokens.new due)) }
{
    let more = tokens.goes_on(TokenKind::Comma, TokenKind::RightParen)?;
    let mut list = Items::new(alloc);
    let end = add_steps(alloc, more, &mut list, tokens);
    kept(list, end)
}

/// Adds the steps of a list, where another comes, up to its closing bracket.
#[cycle(steps)]
fn add_steps(
    alloc: Global,
    another: bool,
    list: &mut Items<Step>,
    tokens: &mut Cursor<'_, '_>,
) -> Result<(), Stop>
    ensures reads { OnOk result ((from : State) (around : Steps) → StepsGoOn another (ahead tokens.old) from (map step_tree list.old) around
        → Moves tokens.old from tokens.new (end_steps (map step_tree list.new) around)) }
    ensures no_longer { OnOk result (length (ahead tokens.new) ≤ length (ahead tokens.old)) }
    ensures refused { IfErr result (λ stop. IfRefused stop (λ due. (from : State) (around : Steps) → StepsGoOn another (ahead tokens.old) from (map step_tree list.old) around
        → Refuses tokens.old from tokens.new due)) }
{
    let mut more = another;
    'members: while more {
        let member = step(alloc, tokens)?;
        list.push(member)?;
        more = tokens.goes_on(TokenKind::Comma, TokenKind::RightParen)?;
    }
    Ok(())
}

/// The steps of a proof, one at least, in round brackets.
pub fn steps(alloc: Global, tokens: &mut Cursor<'_, '_>) -> Result<Items<Step>, Stop>
    ensures reads { IfOk result (λ steps. (from : State) (around : Steps) → Expects kind.LeftParen (ahead tokens.old) from (step_due [] around)
        → Moves tokens.old from tokens.new (end_steps (map step_tree steps) around)) }
    ensures shorter { OnOk result (length (ahead tokens.new) < length (ahead tokens.old)) }
    ensures refused { IfErr result (λ stop. IfRefused stop (λ due. (from : State) (around : Steps) → Expects kind.LeftParen (ahead tokens.old) from (step_due [] around)
        → Refuses tokens.old from tokens.new due)) }
{
    tokens.expect(TokenKind::LeftParen)?;
    let mut list = Items::new(alloc);
    let end = add_steps(alloc, true, &mut list, tokens);
    kept(list, end)
}
