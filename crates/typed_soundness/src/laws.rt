ghost use Rattle.typed_soundness.specs.Examples.{SoundnessExamples};
ghost use Rattle.typed_soundness.specs.Laws.{TypedProgramsAreSafe};

/// No run of a method of a well-typed program fails where the legs of all methods that it reaches pass.
pub fn typed_programs_are_safe()
    ensures { TypedProgramsAreSafe }
{}

/// The law on a method that calls itself, and on one whose run fails.
pub fn law_on_examples()
    ensures { SoundnessExamples }
{}
