ghost use Rattle.typed_programs.specs.Examples.{ProgramExamples};

/// Well-typed programs and others, by example.
pub fn programs_on_examples()
    ensures { ProgramExamples }
{}
