ghost use Rattle.std.specs.Prelude.{◌↔◌, IsTrue};
ghost use Rattle.slang_values.specs.Tree.{bound};
ghost use Rattle.slang_values.specs.Typing.{IsClosed};
ghost use Rattle.term_trees.specs.Term.{tree, trees};
ghost use Rattle.lk_terms.specs.Closed.{TellsClosed, TellAllClosed};

use crate::place::next_place;
use term_trees::{Shape, Term};

/// Whether no bound variable of the term is loose.
pub fn is_closed(term: &Term) -> bool
    ensures { IsTrue result ↔ IsClosed 0 (tree term.now) }
{
    is_closed_below(term, Some(0))
}

/// Whether each loose bound variable of the term has a number below that of the place.
#[cycle(closed)]
fn is_closed_below(term: &Term, place: Option<u32>) -> bool
    ensures { TellsClosed place (tree term.now) result }
{
    match term.shape() {
        Shape::Literal(_) => true,
        Shape::Truth(_) => true,
        Shape::Symbol(_) => true,
        Shape::Bound(n) => is_below(n, place),
        Shape::Unary(_, a) => is_closed_below(a, place),
        Shape::Binary(_, a, b) => is_closed_below(a, place) && is_closed_below(b, place),
        Shape::Update(a, i, x) => {
            is_closed_below(a, place) && is_closed_below(i, place) && is_closed_below(x, place)
        }
        Shape::Quantified(_, low, high, body) => {
            is_closed_below(low, place)
                && is_closed_below(high, place)
                && is_closed_below(body, next_place(place))
        }
        Shape::Sequence(_, ts) => are_closed_below(ts, place),
        Shape::Record(_, ts) => are_closed_below(ts, place),
    }
}

fn is_below(number: u32, place: Option<u32>) -> bool
    ensures { TellsClosed place (bound number) result }
{
    match place {
        Some(n) => number < n,
        None => true,
    }
}

#[cycle(closed)]
#[tactic(auto, using(term_trees::proofs::Sizes::deepest_lines))]
fn are_closed_below(terms: &[Term], place: Option<u32>) -> bool
    ensures { TellAllClosed place (trees terms.now) result }
{
    for term in terms {
        if !is_closed_below(term, place) {
            return false;
        }
    }
    true
}
