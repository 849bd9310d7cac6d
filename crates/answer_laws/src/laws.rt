ghost use Rattle.answer_laws.specs.Laws.{MetObligationsPass, VerifiedLegsPass};

/// A well-typed leg over numbers passes where what it asks for is so.
pub fn met_obligations_pass()
    ensures { MetObligationsPass }
{}

/// The legs of a method that is verified pass.
pub fn verified_legs_pass()
    ensures { VerifiedLegsPass }
{}
