ghost use Rattle.std.specs.Prelude.{◌≡◌, IfOk, Some, option_copied};
ghost use Rattle.std.specs.Option.{option_map};
ghost use Rattle.slang_values.specs.Tree.{name};
ghost use Rattle.program_trees.specs.Claims.{old_variable, variable_claim};
ghost use Rattle.program_trees.specs.Variables as variables;
ghost use Rattle.lk_claims.specs.Claim.{claim_tree};
ghost use Rattle.type_rules.specs.Meanings.{Scope, meaning_of};
ghost use Rattle.typed_texts.specs.Claims as typed;
ghost use Rattle.name_scopes.specs.Fits.{Fits};
ghost use Rattle.name_scopes.specs.Meanings.{meant};
ghost use Rattle.typed_names.specs.Variables.{kind_seen};
ghost use Rattle.claim_making.specs.Made.{numbered};

use crate::NoMemory;
use lk_claims::Claim;
use name_scopes::{Meaning, NameScope};
use typed_names::{Numbering, VariableKind};

/// What stands for a part that has a fault.
#[tactic(auto, using(lk_claims::proofs::Trees::leaf_lines))]
pub fn no_claim(numbers: Numbering) -> Claim
    ensures { claim_tree result ≡ numbered numbers typed.no_claim }
{
    Claim::Lit(0)
}

/// The variable as a claim.
#[tactic(auto, using(lk_claims::proofs::Trees::leaf_lines))]
fn variable_of(numbers: Numbering, variable: VariableKind) -> Result<Claim, NoMemory>
    ensures { IfOk result (λ claim. claim_tree claim ≡ numbered numbers (variable_claim (kind_seen variable))) }
{
    Ok(Claim::Var(numbers.number_of(variable)?))
}

/// What a name with this meaning stands for in a claim, where so many quantifiers stand around.
#[tactic(auto, using(lk_claims::proofs::Trees::leaf_lines))]
fn meant_claim(numbers: Numbering, depth: u32, meaning: &Meaning) -> Result<Claim, NoMemory>
    ensures { IfOk result (λ claim. claim_tree claim ≡ numbered numbers (typed.claim_meant depth (Some (meant meaning.now)))) }
{
    match meaning {
        Meaning::Local { number, .. } => variable_of(numbers, VariableKind::Local(*number)),
        Meaning::Global { number, .. } => variable_of(numbers, VariableKind::Global(*number)),
        Meaning::Bound(level) => Ok(Claim::Bound(depth.saturating_sub(*level).saturating_sub(1))),
        Meaning::Block(label) => Ok(Claim::LetSym(*label)),
        Meaning::Record(_) | Meaning::Method(_) => Ok(no_claim(numbers)),
    }
}

/// What `In` of a name with this meaning stands for.
fn entry_claim(numbers: Numbering, meaning: &Meaning) -> Result<Claim, NoMemory>
    ensures { IfOk result (λ claim. claim_tree claim ≡ numbered numbers (typed.entry_meant (Some (meant meaning.now)))) }
{
    match meaning {
        Meaning::Global { number, .. } => variable_of(numbers, VariableKind::Entry(*number)),
        Meaning::Local { .. }
        | Meaning::Bound(_)
        | Meaning::Block(_)
        | Meaning::Record(_)
        | Meaning::Method(_) => Ok(no_claim(numbers)),
    }
}

/// What a variable was before its last change.
#[tactic(auto, using(lk_claims::proofs::Trees::leaf_lines))]
fn old_of(numbers: Numbering, variable: VariableKind) -> Result<Claim, NoMemory>
    ensures { IfOk result (λ claim. claim_tree claim ≡ numbered numbers (name (old_variable (kind_seen variable)))) }
{
    Ok(Claim::OldVar(numbers.number_of(variable)?))
}

/// What `Old` of a name with this meaning stands for.
fn old_claim(numbers: Numbering, meaning: &Meaning) -> Result<Claim, NoMemory>
    ensures { IfOk result (λ claim. claim_tree claim ≡ numbered numbers (typed.old_meant (Some (meant meaning.now)))) }
{
    match meaning {
        Meaning::Local { number, .. } => old_of(numbers, VariableKind::Local(*number)),
        Meaning::Global { number, .. } => old_of(numbers, VariableKind::Global(*number)),
        Meaning::Bound(_) | Meaning::Block(_) | Meaning::Record(_) | Meaning::Method(_) => Ok(
            no_claim(numbers),
        ),
    }
}

/// What a name stands for in a claim.
pub fn named(scope: &NameScope, numbers: Numbering, name: &str) -> Result<Claim, NoMemory>
    ensures { IfOk result (λ claim. (at : Scope) → Fits scope.now at → claim_tree claim ≡ numbered numbers (typed.claim_meant at.depth (meaning_of at name.now))) }
{
    match scope.meaning(name) {
        None => Ok(no_claim(numbers)),
        Some(meaning) => meant_claim(numbers, scope.depth, meaning),
    }
}

/// What `In` of a name stands for.
pub fn entry_named(scope: &NameScope, numbers: Numbering, name: &str) -> Result<Claim, NoMemory>
    ensures { IfOk result (λ claim. (at : Scope) → Fits scope.now at → claim_tree claim ≡ numbered numbers (typed.entry_meant (meaning_of at name.now))) }
{
    match scope.meaning(name) {
        None => Ok(no_claim(numbers)),
        Some(meaning) => entry_claim(numbers, meaning),
    }
}

/// What `Old` of a name stands for.
pub fn old_named(scope: &NameScope, numbers: Numbering, name: &str) -> Result<Claim, NoMemory>
    ensures { IfOk result (λ claim. (at : Scope) → Fits scope.now at → claim_tree claim ≡ numbered numbers (typed.old_meant (meaning_of at name.now))) }
{
    match scope.meaning(name) {
        None => Ok(no_claim(numbers)),
        Some(meaning) => old_claim(numbers, meaning),
    }
}

/// The result of the method.
pub fn result_claim(numbers: Numbering) -> Result<Claim, NoMemory>
    ensures { IfOk result (λ claim. claim_tree claim ≡ numbered numbers (variable_claim variables.result)) }
{
    variable_of(numbers, VariableKind::Result)
}
