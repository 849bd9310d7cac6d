ghost use Rattle.std.specs.Prelude.{◌≡◌, [], ◌<◌, ◌+◌, ◌^◌};
ghost use Rattle.term_nodes.specs.Node.{shape_tree};
ghost use Rattle.store_substitution.specs.Levels.{bound_in, outer_count, level_of};

use term_nodes::NodeShape;

/// The number of a bound variable, where the term is one.
pub fn bound_in(shape: NodeShape<'_>) -> Option<u32>
    ensures { result ≡ bound_in (shape_tree [] shape.entry) }
{
    match shape {
        NodeShape::Bound(n) => Some(n),
        NodeShape::Literal(_) | NodeShape::Truth(_) | NodeShape::Symbol(_) => None,
        NodeShape::Unary(_, _) | NodeShape::Binary(_, _, _) | NodeShape::Update(_, _, _) => None,
        NodeShape::Quantified(_, _, _, _) => None,
        NodeShape::Sequence(_, _) | NodeShape::Record(_, _) => None,
    }
}

/// How many of the parts are no body of a quantifier. They come first.
pub fn outer_count(shape: NodeShape<'_>) -> usize
    ensures { result ≡ outer_count (shape_tree [] shape.entry) }
{
    match shape {
        NodeShape::Literal(_) | NodeShape::Truth(_) | NodeShape::Symbol(_) | NodeShape::Bound(_) =>
            0,
        NodeShape::Unary(_, _) => 1,
        NodeShape::Binary(_, _, _) => 2,
        NodeShape::Update(_, _, _) => 3,
        NodeShape::Quantified(_, _, _, _) => 2,
        NodeShape::Sequence(_, parts) => parts.len(),
        NodeShape::Record(_, parts) => parts.len(),
    }
}

/// The number of the bound variable in the part at that place.
pub fn level_of(n: u64, outer: usize, place: usize) -> u64
    requires { n + 1 < 2 ^ 64 }
    ensures { result ≡ level_of n outer place }
{
    if place < outer { n } else { n + 1 }
}
