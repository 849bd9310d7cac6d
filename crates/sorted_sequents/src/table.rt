ghost use Rattle.std.specs.Prelude.{◌≡◌, ◌<◌, ◌≤◌, length, map, OnOk};
ghost use Rattle.std.specs.List.{All, list_all};
ghost use Rattle.term_nodes.specs.Node.{shape_numbers};
ghost use Rattle.term_sorts.specs.Types.{types_of, record_types};
ghost use Rattle.term_store.specs.Store.{tree_at};
ghost use Rattle.sorted_sequents.specs.Fitting.{is_fit};
ghost use Rattle.sorted_sequents.specs.Answers.{AreFitAnswers};

use crate::NoMemory;
use crate::fitting::fits;
use sqlite_items::Items;
use term_nodes::NodeShape;
use term_store::TermStore;
use term_trees::Sort;

/// The answer that was found for the term.
fn answer_for(
    symbols: &[Sort],
    records: &[Items<Sort>],
    store: &TermStore,
    answers: &[bool],
    id: usize,
) -> bool
    requires answers { AreFitAnswers (record_types records.now) (types_of symbols.now) store.now answers.now }
    requires within { id < length answers.now }
    ensures { result ≡ is_fit (record_types records.now) (types_of symbols.now) (tree_at store.now id) }
{
    answers[id]
}

/// Whether it is true for each of the terms.
fn answer_for_all(
    symbols: &[Sort],
    records: &[Items<Sort>],
    store: &TermStore,
    answers: &[bool],
    ids: &[usize],
) -> bool
    requires answers { AreFitAnswers (record_types records.now) (types_of symbols.now) store.now answers.now }
    requires within { All (λ k. k < length answers.now) ids.now }
    ensures { result ≡ list_all (is_fit (record_types records.now) (types_of symbols.now)) (map (tree_at store.now) ids.now) }
{
    for id in ids {
        if !answer_for(symbols, records, store, answers, *id) {
            return false;
        }
    }
    true
}

/// Whether it is true for each part.
#[tactic(auto, using(crate::proofs::Fits::and_lines))]
fn answer_for_parts(
    symbols: &[Sort],
    records: &[Items<Sort>],
    store: &TermStore,
    answers: &[bool],
    shape: NodeShape<'_>,
) -> bool
    requires answers { AreFitAnswers (record_types records.now) (types_of symbols.now) store.now answers.now }
    requires within { All (λ k. k < length answers.now) (shape_numbers shape) }
    ensures { result ≡ list_all (is_fit (record_types records.now) (types_of symbols.now)) (map (tree_at store.now) (shape_numbers shape.entry)) }
{
    match shape {
        NodeShape::Literal(_) | NodeShape::Truth(_) | NodeShape::Symbol(_) | NodeShape::Bound(_) =>
            true,
        NodeShape::Unary(_, a) => answer_for(symbols, records, store, answers, a),
        NodeShape::Binary(_, a, b) => {
            answer_for(symbols, records, store, answers, a)
                && answer_for(symbols, records, store, answers, b)
        }
        NodeShape::Update(a, i, x) => {
            answer_for(symbols, records, store, answers, a)
                && answer_for(symbols, records, store, answers, i)
                && answer_for(symbols, records, store, answers, x)
        }
        NodeShape::Quantified(_, low, high, body) => {
            answer_for(symbols, records, store, answers, low)
                && answer_for(symbols, records, store, answers, high)
                && answer_for(symbols, records, store, answers, body)
        }
        NodeShape::Sequence(_, parts) => answer_for_all(symbols, records, store, answers, parts),
        NodeShape::Record(_, parts) => answer_for_all(symbols, records, store, answers, parts),
    }
}

/// Whether the first term without an answer is well typed.
fn is_fit(
    symbols: &[Sort],
    records: &[Items<Sort>],
    store: &TermStore,
    answers: &[bool],
    id: usize,
) -> bool
    requires answers { AreFitAnswers (record_types records.now) (types_of symbols.now) store.now answers.now }
    requires within { id < length store.now }
    requires next { id ≡ length answers.now }
    ensures { result ≡ is_fit (record_types records.now) (types_of symbols.now) (tree_at store.now id) }
{
    let shape = store.view(id).shape();
    fits(symbols, records, store, shape)
        && answer_for_parts(symbols, records, store, answers, shape)
}

/// Finds the answers for all terms below the number.
pub fn work_out(
    symbols: &[Sort],
    records: &[Items<Sort>],
    store: &TermStore,
    answers: &mut Vec<bool>,
    count: usize,
) -> Result<(), NoMemory>
    requires answers { AreFitAnswers (record_types records.now) (types_of symbols.now) store.now answers.old.items }
    requires count { count ≤ length store.now }
    ensures answers { AreFitAnswers (record_types records.now) (types_of symbols.now) store.now answers.new.items }
    ensures all { OnOk result (count ≤ length answers.new.items) }
{
    'terms: for id in answers.len()..count {
        let answer = is_fit(symbols, records, store, answers.as_slice(), id);
        answers.push(answer)?;
    }
    Ok(())
}
