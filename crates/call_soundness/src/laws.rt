ghost use Rattle.call_soundness.specs.Laws.{PassingLegsAreSafe};

/// No run of a method fails where the legs of all methods that it reaches pass.
pub fn passing_legs_are_safe()
    ensures { PassingLegsAreSafe }
{}
