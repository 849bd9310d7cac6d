ghost use Rattle.verified_runs.specs.Laws.{VerifiedCommandsFailAtEntryAlone, VerifiedRunsDoNotFail};

/// No run of a method fails under stops where all methods that it reaches are verified, from a state that meets its
/// Requires.
pub fn verified_runs_do_not_fail()
    ensures { VerifiedRunsDoNotFail }
{}

/// Of such a method the command tells of no failure but that of its own Requires, before any turn.
pub fn verified_commands_fail_at_entry_alone()
    ensures { VerifiedCommandsFailAtEntryAlone }
{}
