ghost use Rattle.print_expressions.specs.Laws.{NumeralsReadBack, ExpressionsReadBack, PlacesAreNotPrinted, ExpressionsAreShortest};

/// The digits of a number are a numeral of that value.
pub fn numerals_read_back()
    ensures { NumeralsReadBack }
{}

/// What is printed of an expression is in the grammar, and has the same tree without places.
pub fn expressions_read_back()
    ensures { ExpressionsReadBack }
{}

/// What is printed does not depend on the places of a tree.
pub fn places_are_not_printed()
    ensures { PlacesAreNotPrinted }
{}

/// No text of the same tree has fewer tokens than what is printed plainly.
pub fn expressions_are_shortest()
    ensures { ExpressionsAreShortest }
{}
