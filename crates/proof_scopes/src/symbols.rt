ghost use Rattle.std.specs.Prelude.{◌≡◌, map, OnOk};
ghost use Rattle.term_trees.specs.Term.{tree};
ghost use Rattle.deduction_rules.specs.Replacement.{has_symbol};
ghost use Rattle.proof_scopes.specs.Scope.{has, is_in, is_in_some, Gains};

use std::collections::BTreeSet;
use term_trees::{NoMemory, Shape, Term};

/// Adds the symbols of the term.
#[cycle(add)]
pub fn add_symbols(term: &Term, symbols: &mut BTreeSet<u32>) -> Result<(), NoMemory>
    ensures { OnOk result (Gains symbols.old symbols.new (is_in (tree term.now))) }
{
    if let Shape::Symbol(n) = term.shape() {
        symbols.insert(n)?;
        return Ok(());
    }
    for place in 0..term.part_count() {
        add_symbols(term.part(place), symbols)?;
    }
    Ok(())
}

/// Adds the symbols of all these terms.
pub fn add_all_symbols(terms: &[Term], symbols: &mut BTreeSet<u32>) -> Result<(), NoMemory>
    ensures { OnOk result (Gains symbols.old symbols.new (is_in_some (map tree terms.now))) }
{
    for term in terms {
        add_symbols(term, symbols)?;
    }
    Ok(())
}

/// Whether some of the symbols stands in the term.
#[cycle(mentions)]
pub fn mentions(term: &Term, symbols: &BTreeSet<u32>) -> bool
    ensures { result ≡ has_symbol (has symbols.now) (tree term.now) }
{
    if let Shape::Symbol(n) = term.shape() {
        return symbols.contains(&n);
    }
    for place in 0..term.part_count() {
        if mentions(term.part(place), symbols) {
            return true;
        }
    }
    false
}
