ghost use Rattle.text_heights.specs.Low.{ClaimsAreLow, ConstantsAreLow, ValuesAreLow};

/// A claim is at most twice as high as the expression that it comes of.
pub fn claims_are_low()
    ensures { ClaimsAreLow }
{}

/// A value of the program is not higher than the expression that it comes of.
pub fn values_are_low()
    ensures { ValuesAreLow }
{}

/// A constant of the program is not higher than the one that it comes of.
pub fn constants_are_low()
    ensures { ConstantsAreLow }
{}
