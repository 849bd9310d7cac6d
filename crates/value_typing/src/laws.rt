ghost use Rattle.value_typing.specs.Faultless.{TypedWhereFaultless};
ghost use Rattle.value_typing.specs.Kept.{ClaimsAreClosed, ValuesKeepClaims};
ghost use Rattle.value_typing.specs.Nodes.{ConstantsHavePlaces, ValuesHavePlaces};
ghost use Rattle.value_typing.specs.Records.{RecordsEnd};
ghost use Rattle.value_typing.specs.WellTyped.{ClaimsAreWellTyped, ValuesAreWellTyped};

/// Where the names have types, an expression has a type exactly where it has no fault.
pub fn typed_where_faultless()
    ensures { TypedWhereFaultless }
{}

/// The claim of a value of the program is that of the text's expression, however its nodes are numbered.
pub fn values_keep_claims()
    ensures { ValuesKeepClaims }
{}

/// No bound variable of a claim is loose.
pub fn claims_are_closed()
    ensures { ClaimsAreClosed }
{}

/// Each node of a value of the program has a place.
pub fn values_have_places()
    ensures { ValuesHavePlaces }
{}

/// Each node of a constant has a place.
pub fn constants_have_places()
    ensures { ConstantsHavePlaces }
{}

/// The claims of a text are claims of the program as its type keeps them.
pub fn claims_are_well_typed()
    ensures { ClaimsAreWellTyped }
{}

/// The expressions of a text are values of the program as its type keeps them.
pub fn values_are_well_typed()
    ensures { ValuesAreWellTyped }
{}

/// Records none of which holds itself end.
pub fn records_end()
    ensures { RecordsEnd }
{}
