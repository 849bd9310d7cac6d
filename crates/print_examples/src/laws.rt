ghost use Rattle.print_examples.specs.Printed.{PrintingExamples};

/// What is printed of small trees, byte for byte.
pub fn printed_on_examples()
    ensures { PrintingExamples }
{}
