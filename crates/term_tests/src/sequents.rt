ghost use Rattle.std.specs.Prelude.{◌≡◌, IfOk, map};
ghost use Rattle.term_trees.specs.Term.{sort_type, tree};
ghost use Rattle.lk_terms.specs.Sequent.{sequent_of};
ghost use Rattle.term_tests.specs.Examples.{is_bounded, bounded_then, SequentsAreJudged, TablesAreJudged, PartsAreLimited};

use lk_terms::{NoMemory, Sequent, Sort, Term, is_closed};
use slang_values::{Binary, Unary};
use sqlite_items::{Boxed, Items};
use std::alloc::Global;
use std::test::Fail;

/// Which sequents are well sorted, and which are valid.
pub fn examples()
    ensures { SequentsAreJudged }
{}

/// Which tables of records are well formed.
pub fn tables()
    ensures { TablesAreJudged }
{}

/// How many parts a record may have.
pub fn part_limits()
    ensures { PartsAreLimited }
{}

/// The number in a record is at most another.
#[tactic(auto, using(term_trees::proofs::Trees::tree_lines))]
fn bounded(alloc: Global) -> Result<Boxed<Term>, NoMemory>
    ensures { IfOk result (λ t. tree t ≡ is_bounded) }
{
    let field = Boxed::new(alloc, Term::unary(alloc, Unary::Field(0), Term::Symbol(0))?)?;
    let other = Boxed::new(alloc, Term::Symbol(1))?;
    Ok(Boxed::new(alloc, Term::Le(field, other))?)
}

#[tactic(auto, using(term_trees::proofs::Sorts::sort_lines))]
fn sorts(alloc: Global) -> Result<Items<Sort>, NoMemory>
    ensures { IfOk result (λ ss. map sort_type ss ≡ (bounded_then is_bounded).types) }
{
    let mut sorts = Items::new(alloc);
    sorts.push(Sort::Rec(0))?;
    sorts.push(Sort::Z)?;
    Ok(sorts)
}

#[tactic(auto, using(term_trees::proofs::Sorts::sort_lines))]
fn records(alloc: Global) -> Result<Items<Items<Sort>>, NoMemory>
    ensures { IfOk result (λ rs. map (map sort_type) rs ≡ (bounded_then is_bounded).records) }
{
    let element = Boxed::new(alloc, Sort::Z)?;
    let mut fields = Items::new(alloc);
    fields.push(Sort::Z)?;
    fields.push(Sort::Seq(element))?;
    let mut records = Items::new(alloc);
    records.push(fields)?;
    Ok(records)
}

/// A sequent whose goal is its fact.
pub fn bounded_field(alloc: Global) -> Result<Sequent, NoMemory>
    ensures { IfOk result (λ s. sequent_of s ≡ bounded_then is_bounded) }
{
    let sorts = sorts(alloc)?;
    let records = records(alloc)?;
    let mut facts = Items::new(alloc);
    facts.push(bounded(alloc)?.into_inner())?;
    let goal = bounded(alloc)?.into_inner();
    Ok(Sequent {
        sorts,
        records,
        facts,
        goal,
    })
}

#[test]
fn sequents_are_made(rt: HostRuntime) -> Result<(), Fail> {
    let sequent = bounded_field(rt.alloc())?;
    assert!(rt; sequent.sorts.len() == 2 && sequent.records.len() == 1 && sequent.facts.len() == 1);
    assert!(rt; is_closed(&sequent.goal));
    Ok(())
}
