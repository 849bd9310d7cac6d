ghost use Rattle.std.specs.Prelude.{◌≡◌, ◌+◌, ◌-◌, ◌^◌, min, max};
ghost use Rattle.slang_values.specs.Measure.{node_count, height, total_nodes, greatest_height};
ghost use Rattle.term_walks.specs.Measure.{IsMeasureOf};
ghost use Rattle.term_trees.specs.Term.{tree, trees};

use term_trees::{Shape, Term};

/// How large a term is. Both numbers stop at the greatest u64.
#[derive(Clone, Copy)]
pub struct TermSize {
    pub nodes: u64,
    pub height: u64,
}

impl TermSize {
    const NOTHING: TermSize = TermSize {
        nodes: 0,
        height: 0,
    };

    /// Of several parts, those of `self` and `other`.
    fn beside(self, other: TermSize) -> TermSize
        ensures nodes { result.nodes ≡ min (self.nodes + other.nodes) (2 ^ 64 - 1) }
        ensures height { result.height ≡ max self.height other.height }
    {
        TermSize {
            nodes: self.nodes.saturating_add(other.nodes),
            height: self.height.max(other.height),
        }
    }

    /// Of a node over the parts.
    fn above(self) -> TermSize
        ensures nodes { result.nodes ≡ min (self.nodes + 1) (2 ^ 64 - 1) }
        ensures height { result.height ≡ min (self.height + 1) (2 ^ 64 - 1) }
    {
        TermSize {
            nodes: self.nodes.saturating_add(1),
            height: self.height.saturating_add(1),
        }
    }
}

/// How many nodes the term has, and how high it is.
#[cycle(measure)]
pub fn measure(term: &Term) -> TermSize
    ensures { IsMeasureOf (node_count (tree term.now)) (height (tree term.now)) result }
{
    match term.shape() {
        Shape::Literal(_) | Shape::Truth(_) | Shape::Symbol(_) | Shape::Bound(_) => {
            TermSize::NOTHING.above()
        }
        Shape::Unary(_, a) => measure(a).above(),
        Shape::Binary(_, a, b) => measure(a).beside(measure(b)).above(),
        Shape::Update(a, i, x) => measure(a).beside(measure(i)).beside(measure(x)).above(),
        Shape::Quantified(_, low, high, body) => {
            measure(low)
                .beside(measure(high))
                .beside(measure(body))
                .above()
        }
        Shape::Sequence(_, ts) => measure_all(ts).above(),
        Shape::Record(_, ts) => measure_all(ts).above(),
    }
}

#[cycle(measure)]
#[tactic(auto, using(term_trees::proofs::Sizes::deepest_lines))]
fn measure_all(terms: &[Term]) -> TermSize
    ensures { IsMeasureOf (total_nodes (trees terms.now)) (greatest_height (trees terms.now)) result }
{
    let mut all = TermSize::NOTHING;
    for term in terms {
        all = all.beside(measure(term));
    }
    all
}
