ghost use Rattle.typing_examples.specs.Projects.{ProjectExamples};
ghost use Rattle.typing_examples.specs.Rules.{TypingExamples};

/// The rules, computed on small projects.
pub fn typing_on_examples()
    ensures { TypingExamples }
{}

/// The typed program of a small project.
pub fn typed_on_examples()
    ensures { ProjectExamples }
{}
