ghost use Rattle.claim_typing.specs.Fits.{ClaimsAreTyped};

/// A claim that the rules find to be of a type is well typed, of that type.
pub fn claims_are_typed()
    ensures { ClaimsAreTyped }
{}
