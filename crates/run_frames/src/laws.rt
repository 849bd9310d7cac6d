ghost use Rattle.run_frames.specs.Laws.{BlocksEnd, StatementsTakeTurns, RunsWait, BranchesBegin, LoopsBegin, LoopsGoOn, CallsBegin, CallsEnd, RunsEnd};

/// Behind the last statement of a block the run goes on with what is left, and no turn is taken.
pub fn blocks_end()
    ensures { BlocksEnd }
{}

/// A statement that is begun takes a turn.
pub fn statements_take_turns()
    ensures { StatementsTakeTurns }
{}

/// Where no turn is left the run waits at the statement.
pub fn runs_wait()
    ensures { RunsWait }
{}

/// The part of an `if` that comes next is the block inside it.
pub fn branches_begin()
    ensures { BranchesBegin }
{}

/// A loop tests its invariants for the first time.
pub fn loops_begin()
    ensures { LoopsBegin }
{}

/// Where the test of a loop is true its body comes next, and then the loop again.
pub fn loops_go_on()
    ensures { LoopsGoOn }
{}

/// A called method begins with its body, and behind it the caller goes on.
pub fn calls_begin()
    ensures { CallsBegin }
{}

/// At the end of a called method its Ensures are tested, and then the caller goes on.
pub fn calls_end()
    ensures { CallsEnd }
{}

/// At the end of the first method its Ensures are tested, and then the run has ended.
pub fn runs_end()
    ensures { RunsEnd }
{}
