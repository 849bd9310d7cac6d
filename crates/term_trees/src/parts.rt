ghost use Rattle.std.specs.Prelude.{◌≡◌, ◌<◌, ◌≤◌, [], ◌∷◌, length, slice_get};
ghost use Rattle.slang_values.specs.Tree.{parts, tree_list};
ghost use Rattle.term_trees.specs.declared.term.Term.{size-Term};
ghost use Rattle.term_trees.specs.Shape.{deepest};
ghost use Rattle.term_trees.specs.Term.{tree, trees};

use crate::shape::Shape;
use crate::term::Term;

impl Term {
    /// How many parts the term has.
    pub fn part_count(&self) -> usize
        ensures { result ≡ length (parts (tree self.now)) }
    {
        match self.shape() {
            Shape::Literal(_) | Shape::Truth(_) | Shape::Symbol(_) | Shape::Bound(_) => 0,
            Shape::Unary(_, _) => 1,
            Shape::Binary(_, _, _) => 2,
            Shape::Update(_, _, _) | Shape::Quantified(_, _, _, _) => 3,
            Shape::Sequence(_, ts) => count_of(ts),
            Shape::Record(_, ts) => count_of(ts),
        }
    }

    /// The part at a place, from 0 on the left.
    pub fn part(&self, place: usize) -> &Term
        requires { place < length (parts (tree self.now)) }
        ensures value { slice_get (parts (tree self.now)) place ≡ Some (tree result.now) }
        ensures smaller { size-Term result.now < size-Term self.now }
    {
        match self.shape() {
            Shape::Literal(_) | Shape::Truth(_) | Shape::Symbol(_) | Shape::Bound(_) => {
                unreachable!()
            }
            Shape::Unary(_, a) => a,
            Shape::Binary(_, a, b) => one_of_two(place, a, b),
            Shape::Update(a, i, x) => one_of_three(place, a, i, x),
            Shape::Quantified(_, low, high, body) => one_of_three(place, low, high, body),
            Shape::Sequence(_, ts) => one_of(place, ts),
            Shape::Record(_, ts) => one_of(place, ts),
        }
    }
}

fn one_of_two<'a>(place: usize, a: &'a Term, b: &'a Term) -> &'a Term
    requires { place < 2 }
    ensures { slice_get (a.now ∷ b.now ∷ []) place ≡ Some result.now }
{
    if place == 0 { a } else { b }
}

fn one_of_three<'a>(place: usize, a: &'a Term, b: &'a Term, c: &'a Term) -> &'a Term
    requires { place < 3 }
    ensures { slice_get (a.now ∷ b.now ∷ c.now ∷ []) place ≡ Some result.now }
{
    match place {
        0 => a,
        1 => b,
        _ => c,
    }
}

#[tactic(auto, using(crate::proofs::PartLists::part_lines))]
fn count_of(terms: &[Term]) -> usize
    ensures { result ≡ length (tree_list (trees terms.now)) }
{
    terms.len()
}

#[tactic(auto, using(crate::proofs::PartLists::part_lines))]
fn one_of(place: usize, terms: &[Term]) -> &Term
    requires { place < length (tree_list (trees terms.now)) }
    ensures value { slice_get (tree_list (trees terms.now)) place ≡ Some (tree result.now) }
    ensures small { size-Term result.now ≤ deepest terms.now }
{
    &terms[place]
}
