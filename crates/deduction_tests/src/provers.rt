//! A prover that closes what is among the facts.

ghost use Rattle.std.specs.Prelude.{◌≡◌, map};
ghost use Rattle.std.specs.List.{list_any};
ghost use Rattle.term_trees.specs.Term.{tree};
ghost use Rattle.deduction_rules.specs.Replacement.{same_tree};
ghost use Rattle.proof_closing.specs.Prover.{plain_sequent};

use lk_terms::{Sequent, Term, compare};
use proof_closing::{CloseEnd, Closing, Prover};
use std::alloc::Global;

fn same(a: &Term, b: &Term) -> bool
    ensures { result ≡ same_tree (tree a.now) (tree b.now) }
{
    compare(a, b).is_eq()
}

fn is_one_of(goal: &Term, facts: &[Term]) -> bool
    ensures { result ≡ list_any (λ f. same_tree (tree goal.now) (tree f)) facts.now }
{
    facts.iter().any(|fact| same(goal, fact))
}

#[tactic(auto, using(rule_check::proofs::ListLines::list_lines))]
fn is_among(goal: &Term, facts: &[Term]) -> bool
    ensures { result ≡ list_any (same_tree (tree goal.now)) (map tree facts.now) }
{
    is_one_of(goal, facts)
}

fn is_fact(sequent: &Sequent) -> bool
    ensures { result ≡ list_any (same_tree (plain_sequent sequent.now).goal) (plain_sequent sequent.now).facts }
{
    is_among(&sequent.goal, sequent.facts.as_slice())
}

/// What it works on, what it was told, and what it is told at its next call.
#[derive(Clone, Copy)]
pub struct FactProver {
    pub mine: u64,
    pub told: u64,
    pub next: u64,
}

impl Prover for FactProver {
    ghost use Rattle.std.specs.List.{list_any};
    ghost use Rattle.deduction_rules.specs.Replacement.{same_tree};

    ghost closes = { λ s. list_any (same_tree s.goal) s.facts };

    ghost work = { λ p. record { mine = p.mine; told = p.told } };

    fn close(&mut self, _alloc: Global, sequent: &Sequent) -> Result<Closing, CloseEnd> {
        self.told = self.told.max(self.next);
        if self.mine < self.told {
            return Err(CloseEnd::Stopped { told: self.told });
        }
        if is_fact(sequent) {
            Ok(Closing::Yes)
        } else {
            Ok(Closing::No)
        }
    }
}
