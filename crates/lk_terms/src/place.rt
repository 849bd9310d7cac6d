ghost use Rattle.lk_terms.specs.Place.{IsNextPlace};

/// The number of a bound variable inside one more quantifier, where it is one of 32 bits. No bound variable has a greater number.
pub fn next_place(place: Option<u32>) -> Option<u32>
    ensures { IsNextPlace place result }
{
    match place {
        Some(n) => n.checked_add(1),
        None => None,
    }
}
