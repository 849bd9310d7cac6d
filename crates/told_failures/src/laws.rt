ghost use Rattle.told_failures.specs.Laws.{VerifiedMethodsAreToldSafe};

/// Where `check` says of all methods that a method reaches that they are verified, `run` writes of no failure of it but
/// that of its own Requires.
pub fn verified_methods_are_told_safe()
    ensures { VerifiedMethodsAreToldSafe }
{}
