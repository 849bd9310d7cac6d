//! Bases and steps over the claims of the tests.

ghost use Rattle.std.specs.Prelude.{◌≡◌, ◌++◌, IfOk, OnOk, map};
ghost use Rattle.term_trees.specs.Term.{sort_type, tree};
ghost use Rattle.proof_closing.specs.Prover.{plain_sequent};
ghost use Rattle.deduction.specs.Steps.{step_tree, step_trees};
ghost use Rattle.deduction_tests.specs.Claims.{types, test_claim, test_base, IsTestSymbol, IsTestStep, AreTestSteps};

use crate::claims::{Claim, claim};
use lk_terms::{NoMemory, Sequent, Sort, StepTerm, Term};
use owned_results::both;
use sqlite_items::{Boxed, Items};
use std::alloc::Global;

/// A claim by a rule, with its label and the labels that it cites.
#[derive(Clone, Copy)]
pub struct Line(pub u32, pub Claim, pub u8, pub &'static [u32]);

#[derive(Clone, Copy)]
pub enum Row {
    One(Line),
    /// A block: its label, the label of its assumption, that, and its steps.
    Block(u32, u32, Claim, &'static [Line]),
    /// The same with a `Let` of the number k.
    Let(u32, u32, Claim, &'static [Line]),
}

/// The number of the symbol k.
const K: u32 = 3;

fn make_line(alloc: Global, line: Line) -> Result<StepTerm, NoMemory>
    ensures { IfOk result (λ s. IsTestStep (step_tree s)) }
{
    let Line(label, number, rule, cites) = line;
    let (claim, cites) = both(claim(alloc, number), Items::from_slice(alloc, cites))?;
    Ok(StepTerm::Line {
        label,
        claim,
        rule,
        cites,
    })
}

pub fn add_line(alloc: Global, steps: &mut Items<StepTerm>, one: Line) -> Result<(), NoMemory>
    requires { AreTestSteps (step_trees steps.old) }
    ensures { OnOk result (AreTestSteps (step_trees steps.new)) }
{
    steps.push(make_line(alloc, one)?)
}

fn add_lines(alloc: Global, steps: &mut Items<StepTerm>, lines: &[Line]) -> Result<(), NoMemory>
    requires { AreTestSteps (step_trees steps.old) }
    ensures { OnOk result (AreTestSteps (step_trees steps.new)) }
{
    for one in lines {
        add_line(alloc, steps, *one)?;
    }
    Ok(())
}

fn lines(alloc: Global, lines: &[Line]) -> Result<Items<StepTerm>, NoMemory>
    ensures { IfOk result (λ ss. AreTestSteps (step_trees ss)) }
{
    let mut steps = Items::new(alloc);
    add_lines(alloc, &mut steps, lines)?;
    Ok(steps)
}

fn symbol_of(is_let: bool) -> Option<u32>
    ensures { IsTestSymbol result }
{
    if is_let { Some(K) } else { None }
}

fn make_block(
    alloc: Global,
    label: u32,
    is_let: bool,
    assumed: u32,
    given: Claim,
    inside: &[Line],
) -> Result<StepTerm, NoMemory>
    ensures { IfOk result (λ s. IsTestStep (step_tree s)) }
{
    let (assumption, steps) = both(claim(alloc, given), lines(alloc, inside))?;
    let symbol = symbol_of(is_let);
    Ok(StepTerm::Sub {
        label,
        symbol,
        assumed,
        assumption,
        steps,
    })
}

fn make_step(alloc: Global, row: Row) -> Result<StepTerm, NoMemory>
    ensures { IfOk result (λ s. IsTestStep (step_tree s)) }
{
    match row {
        Row::One(one) => make_line(alloc, one),
        Row::Block(label, assumed, given, inside) => {
            make_block(alloc, label, false, assumed, given, inside)
        }
        Row::Let(label, assumed, given, inside) => {
            make_block(alloc, label, true, assumed, given, inside)
        }
    }
}

fn add_step(alloc: Global, steps: &mut Items<StepTerm>, row: Row) -> Result<(), NoMemory>
    requires { AreTestSteps (step_trees steps.old) }
    ensures { OnOk result (AreTestSteps (step_trees steps.new)) }
{
    steps.push(make_step(alloc, row)?)
}

pub fn add_steps(alloc: Global, steps: &mut Items<StepTerm>, rows: &[Row]) -> Result<(), NoMemory>
    requires { AreTestSteps (step_trees steps.old) }
    ensures { OnOk result (AreTestSteps (step_trees steps.new)) }
{
    for row in rows {
        add_step(alloc, steps, *row)?;
    }
    Ok(())
}

#[tactic(auto, using(term_trees::proofs::Sorts::sort_lines))]
fn sorts(alloc: Global) -> Result<Items<Sort>, NoMemory>
    ensures { IfOk result (λ ss. map sort_type ss ≡ types) }
{
    let element = Boxed::new(alloc, Sort::Z)?;
    let mut sorts = Items::new(alloc);
    sorts.push(Sort::B)?;
    sorts.push(Sort::B)?;
    sorts.push(Sort::Z)?;
    sorts.push(Sort::Z)?;
    sorts.push(Sort::Seq(element))?;
    Ok(sorts)
}

fn add_facts(alloc: Global, facts: &mut Items<Term>, claims: &[Claim]) -> Result<(), NoMemory>
    ensures { OnOk result (map tree facts.new ≡ map tree facts.old ++ map test_claim claims.now) }
{
    for number in claims {
        facts.push(claim(alloc, *number)?)?;
    }
    Ok(())
}

fn facts(alloc: Global, claims: &[Claim]) -> Result<Items<Term>, NoMemory>
    ensures { IfOk result (λ fs. map tree fs ≡ map test_claim claims.now) }
{
    let mut facts = Items::new(alloc);
    add_facts(alloc, &mut facts, claims)?;
    Ok(facts)
}

/// A base with these facts.
pub fn base(alloc: Global, claims: &[Claim]) -> Result<Sequent, NoMemory>
    ensures { IfOk result (λ s. plain_sequent s ≡ test_base (map test_claim claims.now)) }
{
    let (sorts, facts) = both(sorts(alloc), facts(alloc, claims))?;
    Ok(Sequent {
        sorts,
        records: Items::new(alloc),
        facts,
        goal: Term::True,
    })
}
