ghost use Rattle.std.specs.Prelude.{◌≡◌, pos};
ghost use Rattle.claim_values.specs.Claims.{bounds_in};

use sqlite_items::Items;

/// The value of a bound variable, by the count of the quantifiers between. The innermost stands last.
#[tactic(auto, using(crate::proofs::Places::bound_lines))]
pub fn bound_at(bound: &Items<i128>, number: u32) -> i128
    ensures { result ≡ bounds_in bound.now number }
{
    let place = number as usize;
    if place < bound.len() {
        match bound.get(bound.len() - 1 - place) {
            Some(z) => *z,
            None => 0,
        }
    } else {
        0
    }
}
