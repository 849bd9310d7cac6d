ghost use Rattle.std.specs.Prelude.{◌≡◌, ℕ, List, map};
ghost use Rattle.std.specs.String.{string_bytes};
ghost use Rattle.lk_io.specs.Run.{run};
ghost use Rattle.command_ends.specs.Status.{code_of, line_of};
ghost use Rattle.std.specs.List.{flat_map};
ghost use Rattle.command_ends.specs.Journal.{GetsLine, too_large_line, no_file_line};
ghost use Rattle.command_ends.specs.Stop.{end_of};

use crate::writing::write_pieces;
use itoa::Buffer;
use lk_io::{Sink, SinkEnd};
use std::alloc::AllocError;
use text_reading::{TextsEnd, name_at};

/// Why a command gave no answer. Each has a status and a line of the journal. A text is told by its place among the
/// command's files, and `DoNotFit` says that the program has no method of the name, or that the words are no arguments of
/// it.
#[derive(Debug, Drop, PartialEq, Eq)]
pub enum Stop {
    WordsRefused,
    ReadFault,
    WriteFault,
    NoMemory,
    TooLarge { at: usize, line: u64 },
    NoFile { at: usize },
    DoNotFit,
}

impl Stop {
    pub fn code(&self) -> u8
        ensures { (files : List (List ℕ)) → result ≡ code_of (end_of files self.now) }
    {
        match self {
            Stop::WordsRefused => 3,
            Stop::ReadFault => 5,
            Stop::WriteFault => 6,
            Stop::NoMemory => 7,
            Stop::TooLarge { .. } => 8,
            Stop::NoFile { .. } => 10,
            Stop::DoNotFit => 11,
        }
    }

    /// Writes the line to the journal, for a command that names these files.
    pub fn tell<J: Sink>(&self, files: &[String], journal: &mut J)
        ensures { GetsLine (run (J.state journal.old) (J.state journal.new))
            (line_of (end_of (map string_bytes files.now) self.now)) }
    {
        match self {
            Stop::WordsRefused => write_line(journal, &[b"logika: words refused\n"]),
            Stop::ReadFault => write_line(journal, &[b"logika: read fault\n"]),
            Stop::WriteFault => write_line(journal, &[b"logika: write fault\n"]),
            Stop::NoMemory => write_line(journal, &[b"logika: no memory\n"]),
            Stop::TooLarge { at, line } => write_too_large(journal, name_at(files, *at), *line),
            Stop::NoFile { at } => write_no_file(journal, name_at(files, *at)),
            Stop::DoNotFit => write_line(journal, &[b"logika: arguments do not fit\n"]),
        }
    }
}

/// Writes a line. Where the journal fails or finds no memory, the line is cut.
fn write_line<J: Sink>(journal: &mut J, pieces: &[&[u8]])
    ensures { GetsLine (run (J.state journal.old) (J.state journal.new))
        (Some (flat_map (λ piece. piece.now) pieces.now)) }
{
    let _ = write_pieces(journal, pieces);
}

fn write_too_large<J: Sink>(journal: &mut J, name: &str, line: u64)
    ensures { GetsLine (run (J.state journal.old) (J.state journal.new)) (Some (too_large_line name.now line)) }
{
    let mut digits = Buffer::new();
    let digits = digits.format(line).as_bytes();
    write_line(
        journal,
        &[
            b"logika: too large ",
            name.as_bytes(),
            b" line ",
            digits,
            b"\n",
        ],
    );
}

fn write_no_file<J: Sink>(journal: &mut J, name: &str)
    ensures { GetsLine (run (J.state journal.old) (J.state journal.new)) (Some (no_file_line name.now)) }
{
    write_line(journal, &[b"logika: no file ", name.as_bytes(), b"\n"]);
}

impl From<TextsEnd> for Stop {
    ghost use Rattle.std.specs.Prelude.{◌≡◌};
    ghost use Rattle.command_ends.specs.Stop.{stop_of_read};

    ghost from_gives = { λ end stop. stop ≡ stop_of_read end };

    fn from(end: TextsEnd) -> Stop {
        match end {
            TextsEnd::ReadFault => Stop::ReadFault,
            TextsEnd::Missing { at } => Stop::NoFile { at },
            TextsEnd::TooLarge { at, line } => Stop::TooLarge { at, line },
            TextsEnd::NoMemory => Stop::NoMemory,
        }
    }
}

impl From<AllocError> for Stop {
    ghost use Rattle.std.specs.Prelude.{◌≡◌};
    ghost use Rattle.command_ends.specs.declared.stop.Stop.TheVariants.{NoMemory};

    ghost from_gives = { λ _ stop. stop ≡ NoMemory };

    fn from(_refused: AllocError) -> Stop {
        Stop::NoMemory
    }
}

impl From<SinkEnd> for Stop {
    ghost use Rattle.std.specs.Prelude.{◌≡◌};
    ghost use Rattle.command_ends.specs.Stop.{stop_of_write};

    ghost from_gives = { λ end stop. stop ≡ stop_of_write end };

    fn from(end: SinkEnd) -> Stop {
        match end {
            SinkEnd::Failed => Stop::WriteFault,
            SinkEnd::NoMemory => Stop::NoMemory,
        }
    }
}
