ghost use Rattle.std.specs.Prelude.{◌≡◌, ◌<◌, ◌≤◌, length, true, false};
ghost use Rattle.term_sorts.specs.Types.{types_of, record_types};
ghost use Rattle.term_store.specs.Store.{tree_at};
ghost use Rattle.store_substitution.specs.Loose.{AreDepths};
ghost use Rattle.sorted_sequents.specs.Answers.{AreFitAnswers};
ghost use Rattle.sorted_sequents.specs.Claims.{is_claim};

use sqlite_items::Items;
use store_formulas::type_of;
use term_store::TermStore;
use term_trees::Sort;

/// Whether the term is a claim: well typed, a truth value, and with no loose bound variable.
pub fn is_claim(
    symbols: &[Sort],
    records: &[Items<Sort>],
    store: &TermStore,
    answers: &[bool],
    depths: &[u64],
    id: usize,
) -> bool
    requires answers { AreFitAnswers (record_types records.now) (types_of symbols.now) store.now answers.now }
    requires depths { AreDepths store.now depths.now }
    requires answered { id < length answers.now }
    requires measured { id < length depths.now }
    ensures { result ≡ is_claim (record_types records.now) (types_of symbols.now) (tree_at store.now id) }
{
    answers[id] && type_of(symbols, records, store, id).is_truth() && depths[id] == 0
}
