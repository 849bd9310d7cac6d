ghost use Rattle.std.specs.Prelude.{◌≡◌, ◌<◌, [], ◌∷◌, length, MatchOption};
ghost use Rattle.closing.specs.Literals as literal_specs;
ghost use Rattle.term_store.specs.Store.{tree_at};
ghost use Rattle.store_literals.specs.Denied.{denied};

use slang_values::Unary;
use term_nodes::NodeShape;
use term_store::TermStore;

/// What stands under the term, if it is a negation.
pub fn denied_by(store: &TermStore, id: usize) -> Option<usize>
    requires { id < length store.now }
    ensures none_or_tree { MatchOption result (denied (tree_at store.now id) ≡ []) (λ a. denied (tree_at store.now id) ≡ tree_at store.now a ∷ []) }
    ensures before { MatchOption result (id ≡ id) (λ a. a < id) }
{
    match store.view(id).shape() {
        NodeShape::Unary(op, a) => match op {
            Unary::Not => Some(a),
            Unary::Neg | Unary::Size | Unary::Field(_) => None,
        },
        NodeShape::Truth(_) | NodeShape::Literal(_) | NodeShape::Symbol(_) | NodeShape::Bound(_) =>
            None,
        NodeShape::Binary(_, _, _) | NodeShape::Update(_, _, _) => None,
        NodeShape::Quantified(_, _, _, _) | NodeShape::Sequence(_, _) | NodeShape::Record(_, _) =>
            None,
    }
}

/// Whether the term is this truth value.
fn is_truth(store: &TermStore, id: usize, value: bool) -> bool
    requires { id < length store.now }
    ensures { result ≡ literal_specs.is_truth value (tree_at store.now id) }
{
    match store.view(id).shape() {
        NodeShape::Truth(b) => b == value,
        NodeShape::Literal(_) | NodeShape::Symbol(_) | NodeShape::Bound(_) => false,
        NodeShape::Unary(_, _) | NodeShape::Binary(_, _, _) | NodeShape::Update(_, _, _) => false,
        NodeShape::Quantified(_, _, _, _) | NodeShape::Sequence(_, _) | NodeShape::Record(_, _) =>
            false,
    }
}

/// Whether the term is `F`, or `Not T`.
pub fn is_false(store: &TermStore, id: usize) -> bool
    requires { id < length store.now }
    ensures { result ≡ literal_specs.is_false (tree_at store.now id) }
{
    match denied_by(store, id) {
        Some(a) => is_truth(store, a, true),
        None => is_truth(store, id, false),
    }
}
