ghost use Rattle.std.specs.Prelude.{◌≡◌, MatchResult, None, map};
ghost use Rattle.std.specs.String.{string_bytes};
ghost use Rattle.lk_io.specs.Run.{run};
ghost use Rattle.command_ends.specs.Status.{code_of, line_of};
ghost use Rattle.command_ends.specs.Journal.{GetsLine};
ghost use Rattle.command_ends.specs.Stop.{end_of};

use crate::stop::Stop;
use lk_io::Sink;

/// The status of a command, as the process's exit code.
#[derive(Clone, Copy, Debug, PartialEq, Eq)]
pub struct Status {
    pub code: u8,
}

/// The status of an answer, or of what stopped a command that names these files, whose line goes to the journal.
pub fn conclude<J: Sink>(answer: Result<u8, Stop>, files: &[String], journal: &mut J) -> Status
    ensures code { MatchResult answer (λ code. result.code ≡ code)
        (λ stop. result.code ≡ code_of (end_of (map string_bytes files.now) stop)) }
    ensures line { MatchResult answer
        (λ _. GetsLine (run (J.state journal.old) (J.state journal.new)) None)
        (λ stop. GetsLine (run (J.state journal.old) (J.state journal.new)) (line_of (end_of (map string_bytes files.now) stop))) }
{
    match answer {
        Ok(code) => Status { code },
        Err(stop) => {
            stop.tell(files, journal);
            Status { code: stop.code() }
        }
    }
}
