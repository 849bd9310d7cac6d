ghost use Rattle.std.specs.Prelude.{◌≡◌, map, OnOk};
ghost use Rattle.term_trees.specs.Term.{tree};
ghost use Rattle.deduction_rules.specs.Deduction as rule;

use crate::symbols::{add_all_symbols, add_symbols};
use rule_check::Cited;
use std::alloc::Global;
use std::collections::BTreeSet;
use term_trees::{NoMemory, Term};

/// What a visible label stands for.
#[derive(Clone, Copy)]
pub struct Labelled<'a> {
    pub label: u32,
    pub cited: Cited<'a>,
}

/// What stands before a step.
#[derive(Drop)]
pub struct Scope<'a> {
    /// What may be cited, in the order of the text.
    pub visible: Vec<Labelled<'a>>,
    /// The symbols in the facts and in all earlier claims and assumptions.
    pub used: BTreeSet<u32>,
    /// The symbols of blocks that have ended, but for those that are a `Let`'s again.
    pub ended: BTreeSet<u32>,
}

impl<'a> Scope<'a> {
    ghost use Rattle.proof_scopes.specs.Scope.{labelled_tree, before_of, nothing, is_in_some, with_used, after_block};

    pub fn new(alloc: Global) -> Scope<'a>
        ensures { before_of result ≡ nothing }
    {
        Scope {
            visible: Vec::new(alloc),
            used: BTreeSet::new(alloc),
            ended: BTreeSet::new(alloc),
        }
    }

    /// The symbols of the facts are used.
    pub fn use_facts(&mut self, facts: &[Term]) -> Result<(), NoMemory>
        ensures { OnOk result (before_of self.new ≡ with_used (is_in_some (map tree facts.now)) (before_of self.old)) }
    {
        add_all_symbols(facts, &mut self.used)
    }

    /// After a claim or an assumption.
    pub fn add_claim(&mut self, label: u32, claim: &'a Term) -> Result<(), NoMemory>
        ensures { OnOk result (before_of self.new ≡ rule.with_claim label (tree claim.now) (before_of self.old)) }
    {
        let cited = Cited::Claim(claim);
        self.visible.push(Labelled { label, cited })?;
        add_symbols(claim, &mut self.used)
    }

    /// Whether the symbol of a `Let` stands before its block.
    pub fn is_used(&self, symbol: Option<u32>) -> bool
        ensures { result ≡ rule.is_used symbol (before_of self.now) }
    {
        match symbol {
            None => false,
            Some(symbol) => self.used.contains(&symbol),
        }
    }

    /// At the beginning of a block with that `Let`.
    pub fn begin(&mut self, symbol: Option<u32>)
        ensures { before_of self.new ≡ rule.with_let symbol (before_of self.old) }
    {
        if let Some(symbol) = symbol {
            self.ended.remove(&symbol);
        }
    }

    /// After a block with that `Let`, before which that many labels were visible.
    pub fn end(
        &mut self,
        outside: usize,
        symbol: Option<u32>,
        block: Labelled<'a>,
    ) -> Result<(), NoMemory>
        ensures { OnOk result (before_of self.new ≡ after_block outside symbol (labelled_tree block.entry) (before_of self.old)) }
    {
        self.visible.truncate(outside);
        self.visible.push(block)?;
        if let Some(symbol) = symbol {
            self.ended.insert(symbol)?;
        }
        Ok(())
    }
}
