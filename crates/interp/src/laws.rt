ghost use Rattle.interp.specs.Laws.{AdvancesInParts};

/// Turns that are given in any division do what their sum does in one.
pub fn advances_in_parts()
    ensures { AdvancesInParts }
{}
