ghost use Rattle.std.specs.Prelude.{◌≡◌, [], IfOk, MatchResult, map};
ghost use Rattle.std.specs.String.{string_bytes};
ghost use Rattle.lk_io.specs.Run.{run};
ghost use Rattle.lk_io.specs.Folder.{FolderState};
ghost use Rattle.text_reading.specs.Limits.{source_limits};
ghost use Rattle.text_reading.specs.Ends.{source_end};
ghost use Rattle.command_ends.specs.Status.{HasStatus};
ghost use Rattle.command_ends.specs.Stop.{stop_of_read, AnswersOrStops, StopsUnwritten};
ghost use Rattle.run_command.specs.Runs.{IsRunReport};
ghost use Rattle.run_source.specs.Run.{run_command, source_texts, IsReportDue};
ghost use Rattle.run_source.specs.Rows.{Rows};

use command_ends::{Status, Stop, conclude, write_pieces};
use lk_io::{Sink, Source};
use project_reading::NamedText;
use run_command::{NO_FIT, Ran, run_texts};
use std::alloc::{AllocError, Global};
use text_reading::{LIMITS, ReadEnd, read_text};

/// The command `run`: the method of that name in the text of the source is run with so many turns, from the words as its arguments.
pub fn run_once<S: Source, O: Sink, J: Sink>(
    alloc: Global,
    method: &str,
    turns: u64,
    arguments: &[String],
    source: &mut S,
    out: &mut O,
    journal: &mut J,
) -> Status
    // No folder is read: whatever it tells.
    ensures status { (folder : FolderState) → HasStatus (run_command source_limits method.now turns (map string_bytes arguments.now))
        (record { source = run (S.state source.old) (S.state source.new); folder = run folder folder })
        (run (O.state out.old) (O.state out.new))
        (run (J.state journal.old) (J.state journal.new)) result.code }
    ensures rows { (folder : FolderState) → Rows source_limits method.now turns (map string_bytes arguments.now)
        (record { source = run (S.state source.old) (S.state source.new); folder = run folder folder })
        (run (O.state out.old) (O.state out.new))
        (run (J.state journal.old) (J.state journal.new)) result.code }
{
    conclude(
        answer_run(alloc, method, turns, arguments, source, out),
        &[],
        journal,
    )
}

/// What is written, and the status, of the run over a text that is named `-`.
fn run_text(
    alloc: Global,
    bytes: Vec<u8>,
    method: &str,
    turns: u64,
    arguments: &[String],
) -> Result<Ran, AllocError>
    ensures { IfOk result (λ ran. IsRunReport (source_texts bytes.items) method.now turns (map string_bytes arguments.now) ran.text.items ran.code) }
{
    match String::from_str(alloc, "-") {
        Ok(name) => run_texts(
            alloc,
            &[NamedText { name, bytes }],
            method,
            turns,
            arguments,
        ),
        Err(refused) => Err(refused),
    }
}

/// The stop of a source that is not read.
fn stop_of_source(end: ReadEnd) -> Stop
    ensures { result ≡ stop_of_read (source_end end) }
{
    match end {
        ReadEnd::ReadFault => Stop::ReadFault,
        ReadEnd::TooLarge { line } => Stop::TooLarge { at: 0, line },
        ReadEnd::NoMemory => Stop::NoMemory,
    }
}

/// The run over the text of the source.
fn run_read<S: Source>(
    alloc: Global,
    method: &str,
    turns: u64,
    arguments: &[String],
    source: &mut S,
) -> Result<Ran, Stop>
    ensures { (folder : FolderState) → MatchResult result
        (λ ran. IsReportDue source_limits method.now turns (map string_bytes arguments.now)
        (record { source = run (S.state source.old) (S.state source.new); folder = run folder folder }) ran.text.items ran.code)
        (StopsUnwritten [] (run_command source_limits method.now turns (map string_bytes arguments.now))
        (record { source = run (S.state source.old) (S.state source.new); folder = run folder folder })) }
{
    match read_text(alloc, source, LIMITS) {
        Ok(bytes) => match run_text(alloc, bytes, method, turns, arguments) {
            Ok(ran) => Ok(ran),
            Err(_) => Err(Stop::NoMemory),
        },
        Err(end) => Err(stop_of_source(end)),
    }
}

fn answer_run<S: Source, O: Sink>(
    alloc: Global,
    method: &str,
    turns: u64,
    arguments: &[String],
    source: &mut S,
    out: &mut O,
) -> Result<u8, Stop>
    ensures { (folder : FolderState) → AnswersOrStops [] (run_command source_limits method.now turns (map string_bytes arguments.now))
        (record { source = run (S.state source.old) (S.state source.new); folder = run folder folder })
        (run (O.state out.old) (O.state out.new)) result }
{
    match run_read(alloc, method, turns, arguments, source) {
        Err(stop) => Err(stop),
        Ok(ran) => {
            if ran.code == NO_FIT {
                Err(Stop::DoNotFit)
            } else {
                match write_pieces(out, &[&ran.text]) {
                    Err(end) => Err(Stop::from(end)),
                    Ok(()) => Ok(ran.code),
                }
            }
        }
    }
}
