ghost use Rattle.std.specs.Prelude.{◌≡◌, ◌≤◌, ◌↔◌, IfOk, MatchResult, false, true, map};
ghost use Rattle.std.specs.String.{string_bytes};
ghost use Rattle.std.specs.Str.{bytes_eq};
ghost use Rattle.std.specs.List.{IsDistinct};
ghost use Rattle.lk_io.specs.Run.{run};
ghost use Rattle.text_reading.specs.Limits.{source_limits};
ghost use Rattle.command_ends.specs.Status.{AnswerIsDue, HasStatus};
ghost use Rattle.command_ends.specs.Stop.{AnswersOrStops, StopsUnwritten, stops_without_file};
ghost use Rattle.logika_cli.specs.Check.{check_command};
ghost use Rattle.logika_cli.specs.Rows.{Rows};

use command_ends::{Status, Stop, conclude, write_pieces};
use lk_io::{Folder, Sink, Source};
use project_check::{Checked, check_texts};
use std::alloc::Global;
use text_reading::{LIMITS, read_texts};

/// The command `check` over the files of these names, none of them twice, or over the text of the source where no file is
/// named. The folder must not have missed a file before; afterwards it has exactly where the status is 10.
pub fn check_once<S: Source, O: Sink, J: Sink, F: Folder>(
    alloc: Global,
    files: &[String],
    source: &mut S,
    out: &mut O,
    journal: &mut J,
    folder: &mut F,
) -> Status
    requires distinct { IsDistinct bytes_eq (map string_bytes files.now) }
    requires unmissed { (F.state folder.old).missed ≡ false }
    ensures status { HasStatus (check_command source_limits (map string_bytes files.now))
        (record { source = run (S.state source.old) (S.state source.new); folder = run (F.state folder.old) (F.state folder.new) })
        (run (O.state out.old) (O.state out.new))
        (run (J.state journal.old) (J.state journal.new)) result.code }
    ensures rows { Rows source_limits (map string_bytes files.now)
        (record { source = run (S.state source.old) (S.state source.new); folder = run (F.state folder.old) (F.state folder.new) })
        (run (O.state out.old) (O.state out.new))
        (run (J.state journal.old) (J.state journal.new)) result.code }
    ensures missed { (result.code ≡ 10) ↔ ((F.state folder.new).missed ≡ true) }
{
    let answer = answer_check(alloc, files, source, out, folder);
    conclude(answer, files, journal)
}

/// What is printed for the texts.
fn checked_texts<S: Source, F: Folder>(
    alloc: Global,
    files: &[String],
    source: &mut S,
    folder: &mut F,
) -> Result<Checked, Stop>
    requires distinct { IsDistinct bytes_eq (map string_bytes files.now) }
    requires unmissed { (F.state folder.old).missed ≡ false }
    ensures checks { MatchResult result
        (λ checked. AnswerIsDue (check_command source_limits (map string_bytes files.now))
        (record { source = run (S.state source.old) (S.state source.new); folder = run (F.state folder.old) (F.state folder.new) })
        checked.text.items checked.code)
        (StopsUnwritten (map string_bytes files.now) (check_command source_limits (map string_bytes files.now))
        (record { source = run (S.state source.old) (S.state source.new); folder = run (F.state folder.old) (F.state folder.new) })) }
    ensures missed { (F.state folder.new).missed ≡ stops_without_file result }
    ensures code { IfOk result (λ checked. checked.code ≤ 2) }
{
    match read_texts(alloc, files, source, folder, LIMITS) {
        Ok(texts) => match check_texts(alloc, texts.as_slice()) {
            Ok(checked) => Ok(checked),
            Err(_) => Err(Stop::NoMemory),
        },
        Err(end) => Err(Stop::from(end)),
    }
}

fn answer_check<S: Source, O: Sink, F: Folder>(
    alloc: Global,
    files: &[String],
    source: &mut S,
    out: &mut O,
    folder: &mut F,
) -> Result<u8, Stop>
    requires distinct { IsDistinct bytes_eq (map string_bytes files.now) }
    requires unmissed { (F.state folder.old).missed ≡ false }
    ensures answers { AnswersOrStops (map string_bytes files.now) (check_command source_limits (map string_bytes files.now))
        (record { source = run (S.state source.old) (S.state source.new); folder = run (F.state folder.old) (F.state folder.new) })
        (run (O.state out.old) (O.state out.new)) result }
    ensures missed { (F.state folder.new).missed ≡ stops_without_file result }
    ensures code { IfOk result (λ code. code ≤ 2) }
{
    match checked_texts(alloc, files, source, folder) {
        Err(stop) => Err(stop),
        Ok(checked) => match write_pieces(out, &[&checked.text]) {
            Err(end) => Err(Stop::from(end)),
            Ok(()) => Ok(checked.code),
        },
    }
}
