ghost use Rattle.std.specs.Prelude.{◌≡◌, ◌<◌, [], ◌∷◌, length, slice_get, Some};
ghost use Rattle.term_nodes.specs.Node.{shape_numbers};
ghost use Rattle.store_order.specs.Compared.{IsFirstDifference};

use term_nodes::NodeShape;

/// How many parts there are.
pub fn part_count(shape: NodeShape<'_>) -> usize
    ensures { result ≡ length (shape_numbers shape.entry) }
{
    match shape {
        NodeShape::Literal(_) | NodeShape::Truth(_) | NodeShape::Symbol(_) | NodeShape::Bound(_) =>
            0,
        NodeShape::Unary(_, _) => 1,
        NodeShape::Binary(_, _, _) => 2,
        NodeShape::Update(_, _, _) => 3,
        NodeShape::Quantified(_, _, _, _) => 3,
        NodeShape::Sequence(_, parts) => parts.len(),
        NodeShape::Record(_, parts) => parts.len(),
    }
}

/// The number of the part at a place.
fn part_at(shape: NodeShape<'_>, place: usize) -> usize
    requires { place < length (shape_numbers shape) }
    ensures { slice_get (shape_numbers shape.entry) place ≡ Some result }
{
    match shape {
        NodeShape::Literal(_) | NodeShape::Truth(_) | NodeShape::Symbol(_) | NodeShape::Bound(_) =>
            unreachable!(),
        NodeShape::Unary(_, a) => a,
        NodeShape::Binary(_, a, b) => one_of_three(a, b, b, place),
        NodeShape::Update(a, i, x) => one_of_three(a, i, x, place),
        NodeShape::Quantified(_, low, high, body) => one_of_three(low, high, body, place),
        NodeShape::Sequence(_, parts) => parts[place],
        NodeShape::Record(_, parts) => parts[place],
    }
}

fn one_of_three(first: usize, second: usize, third: usize, place: usize) -> usize
    requires { place < 3 }
    ensures { slice_get (first ∷ second ∷ third ∷ []) place ≡ Some result }
{
    if place == 0 {
        return first;
    }
    if place == 1 {
        return second;
    }
    third
}

/// The first two parts that are not the same, of as many parts.
pub fn first_difference(a: NodeShape<'_>, b: NodeShape<'_>) -> Option<(usize, usize)>
    requires { length (shape_numbers a) ≡ length (shape_numbers b) }
    ensures { IsFirstDifference (shape_numbers a.entry) (shape_numbers b.entry) result }
{
    for place in 0..part_count(a) {
        let left = part_at(a, place);
        let right = part_at(b, place);
        if left != right {
            return Some((left, right));
        }
    }
    None
}
