ghost use Rattle.argument_rules.specs.Examples.{ArgumentExamples};

/// The definitions, tried on small arguments.
pub fn arguments_on_examples()
    ensures { ArgumentExamples }
{}
