ghost use Rattle.constant_typing.specs.Constants.{ConstantsAreConstant, ConstantsAreValues, ConstantsHaveTypes};

/// A constant without faults has a type.
pub fn constants_have_types()
    ensures { ConstantsHaveTypes }
{}

/// What comes of a constant is a constant of the program.
pub fn constants_are_constant()
    ensures { ConstantsAreConstant }
{}

/// A constant is a value of its type in the program.
pub fn constants_are_values()
    ensures { ConstantsAreValues }
{}
