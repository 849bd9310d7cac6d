ghost use Rattle.verified_programs.specs.Examples.{VerdictExamples};
ghost use Rattle.verified_programs.specs.Laws.{VerifiedProgramsAreSafe};

/// No run of a method fails where it and all methods that it reaches are verified.
pub fn verified_programs_are_safe()
    ensures { VerifiedProgramsAreSafe }
{}

/// A method that calls itself is verified and safe, and one that breaks its own Requires is not verified.
pub fn verdicts_on_examples()
    ensures { VerdictExamples }
{}
