use crate::NoMemory;

/// Where the test of a claim stops: at a number that does not fit in 128 bits, where the body of a quantifier is due and no
/// visit is left, or for want of memory.
#[derive(Clone, Copy, Debug, PartialEq, Eq, Drop)]
pub enum ClaimEnd {
    Wide,
    Visits,
    NoMemory,
}

impl From<NoMemory> for ClaimEnd {
    ghost use Rattle.std.specs.Prelude.{◌≡◌};
    ghost use Rattle.claim_values.specs.declared.ending.ClaimEnd.TheVariants.{NoMemory as want_of_memory};

    ghost from_gives = { λ _ e. e ≡ want_of_memory };

    fn from(_end: NoMemory) -> ClaimEnd {
        ClaimEnd::NoMemory
    }
}
