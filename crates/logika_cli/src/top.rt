ghost use Rattle.std.specs.Prelude.{◌≡◌, ◌≢◌, ◌↔◌, ℕ, List, false, true, map};
ghost use Rattle.std.specs.String.{string_bytes};
ghost use Rattle.lk_io.specs.Run.{run};
ghost use Rattle.text_reading.specs.Limits.{source_limits};
ghost use Rattle.command_ends.specs.Status.{HasStatus};
ghost use Rattle.lk_io.specs.Folder.{FolderState};
ghost use Rattle.run_words.specs.Run.{Run, IsRun};
ghost use Rattle.run_source.specs.Rows as run_rows;
ghost use Rattle.logika_cli.specs.Words.{AreRefused, AreNoCheck, BeginRun, IsCheck, RefusesWords, command_of};
ghost use Rattle.logika_cli.specs.Rows.{Rows};
ghost use Rattle.command_ends.specs.Journal.{GetsLine, no_memory_line};

use crate::check::check_once;
use crate::words::{begin_run, named_files};
use command_ends::{Status, Stop, conclude};
use lk_io::{Folder, Sink, Source};
use run_source::run_once;
use run_words::read_run;
use std::alloc::Global;

/// The program over these words, without its own name: `check` reads the files that are named behind it, or the source
/// where none is, `run` runs a method of the text of the source, and all other words are refused. The folder must not have
/// missed a file before; afterwards it has exactly where the status is 10.
pub fn logika_main<R, S: Source, O: Sink, J: Sink, F: Folder>(
    rt: &R,
    alloc: Global,
    words: &[String],
    source: &mut S,
    out: &mut O,
    journal: &mut J,
    folder: &mut F,
) -> Status
    requires { (F.state folder.old).missed ≡ false }
    ensures status { HasStatus (command_of source_limits (map string_bytes words.now))
        (record { source = run (S.state source.old) (S.state source.new); folder = run (F.state folder.old) (F.state folder.new) })
        (run (O.state out.old) (O.state out.new))
        (run (J.state journal.old) (J.state journal.new)) result.code }

    // The words are refused only where they are not read, and then always, unless memory ran out on arguments of `run`. Then
    // nothing is read and nothing is given on the output.
    ensures refused { result.code ≡ 3 → AreRefused (map string_bytes words.now) }
    ensures line { AreRefused (map string_bytes words.now)
        → RefusesWords (map string_bytes words.now) (run (J.state journal.old) (J.state journal.new)) result.code }
    ensures unread { AreRefused (map string_bytes words.now) → source.new ≡ source.old }
    ensures unopened { AreNoCheck (map string_bytes words.now) → folder.new ≡ folder.old }
    ensures ungiven { AreRefused (map string_bytes words.now) → out.new ≡ out.old }

    // Else each status tells what its row of the command says.
    ensures checks { (files : List (List ℕ)) → IsCheck (map string_bytes words.now) files → Rows source_limits files
        (record { source = run (S.state source.old) (S.state source.new); folder = run (F.state folder.old) (F.state folder.new) })
        (run (O.state out.old) (O.state out.new))
        (run (J.state journal.old) (J.state journal.new)) result.code }
    ensures runs { (asked : Run) → IsRun (map string_bytes words.now) asked
        → run_rows.Rows source_limits asked.method asked.turns asked.arguments
        (record { source = run (S.state source.old) (S.state source.new); folder = run (F.state folder.old) (F.state folder.new) })
        (run (O.state out.old) (O.state out.new))
        (run (J.state journal.old) (J.state journal.new)) result.code }
    ensures missed { (result.code ≡ 10) ↔ ((F.state folder.new).missed ≡ true) }
{
    let _ = rt;
    match named_files(words) {
        Some(files) => check_once(alloc, files, source, out, journal, folder),
        None => {
            if begin_run(words) {
                run_or_refuse(alloc, words, source, out, journal)
            } else {
                conclude(Err(Stop::WordsRefused), &[], journal)
            }
        }
    }
}

/// The command `run` over its words, and the refusal of others that begin as they do.
fn run_or_refuse<S: Source, O: Sink, J: Sink>(
    alloc: Global,
    words: &[String],
    source: &mut S,
    out: &mut O,
    journal: &mut J,
) -> Status
    requires no_check { AreNoCheck (map string_bytes words.now) }
    requires begin { BeginRun (map string_bytes words.now) }
    ensures status { (folder : FolderState) → HasStatus (command_of source_limits (map string_bytes words.now))
        (record { source = run (S.state source.old) (S.state source.new); folder = run folder folder })
        (run (O.state out.old) (O.state out.new))
        (run (J.state journal.old) (J.state journal.new)) result.code }
    ensures refused { result.code ≡ 3 → AreRefused (map string_bytes words.now) }
    ensures line { AreRefused (map string_bytes words.now)
        → RefusesWords (map string_bytes words.now) (run (J.state journal.old) (J.state journal.new)) result.code }
    ensures unread { AreRefused (map string_bytes words.now) → source.new ≡ source.old }
    ensures ungiven { AreRefused (map string_bytes words.now) → out.new ≡ out.old }
    ensures runs { (folder : FolderState) (asked : Run) → IsRun (map string_bytes words.now) asked
        → run_rows.Rows source_limits asked.method asked.turns asked.arguments
        (record { source = run (S.state source.old) (S.state source.new); folder = run folder folder })
        (run (O.state out.old) (O.state out.new))
        (run (J.state journal.old) (J.state journal.new)) result.code }
    ensures other { result.code ≢ 10 }
{
    match read_run(alloc, words) {
        Err(_) => conclude(Err(Stop::NoMemory), &[], journal),
        Ok(None) => conclude(Err(Stop::WordsRefused), &[], journal),
        Ok(Some(asked)) => run_once(
            alloc,
            asked.method,
            asked.turns,
            asked.arguments,
            source,
            out,
            journal,
        ),
    }
}

/// The status where memory ran out before the words were there.
pub fn end_without_memory<J: Sink>(journal: &mut J) -> Status
    ensures status { result.code ≡ 7 }
    ensures line { GetsLine (run (J.state journal.old) (J.state journal.new)) (Some no_memory_line) }
{
    conclude(Err(Stop::NoMemory), &[], journal)
}
