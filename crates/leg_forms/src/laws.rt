ghost use Rattle.leg_forms.specs.Examples.{FormExamples};

/// Well-formed legs and others, by example.
pub fn forms_on_examples()
    ensures { FormExamples }
{}
