ghost use Rattle.std.specs.Prelude.{◌≡◌, [], MatchResult, map};
ghost use Rattle.std.specs.String.{string_bytes};
ghost use Rattle.lk_io.specs.Run.{run};
ghost use Rattle.text_reading.specs.Limits.{IsWithin, PassesIn};
ghost use Rattle.text_reading.specs.Files.{IsTextWithin, ReadsFile, ReadsAll};

use crate::gauge::{Gauge, TooLarge};
use crate::limits::Limits;
use lk_io::{Folder, FolderEnd, Found};
use project_reading::NamedText;
use sqlite_items::Items;
use std::alloc::{AllocError, Global};

/// Why the text of a file was not read.
#[derive(Debug, Drop, PartialEq, Eq)]
pub(crate) enum FileEnd {
    Failed,
    Missing,
    TooLarge { line: u64 },
    NoMemory,
}

impl From<AllocError> for FileEnd {
    ghost use Rattle.std.specs.Prelude.{◌≡◌};
    ghost use Rattle.text_reading.specs.declared.folder_texts.FileEnd.TheVariants.{NoMemory};

    ghost from_gives = { λ _ e. e ≡ NoMemory };

    fn from(_refused: AllocError) -> FileEnd {
        FileEnd::NoMemory
    }
}

/// Finds the first byte past a limit.
fn measured(bytes: &[u8], limits: Limits) -> Result<(), TooLarge>
    ensures { MatchResult result (λ _. IsWithin limits bytes.now) (λ past. PassesIn limits bytes.now past.line) }
{
    let mut gauge = Gauge::new(limits);
    gauge.count(bytes)
}

/// The text of that name, where it is within the limits.
fn text_within(
    alloc: Global,
    name: &str,
    bytes: Vec<u8>,
    limits: Limits,
) -> Result<NamedText, FileEnd>
    ensures { IsTextWithin limits name.now bytes.items result }
{
    match measured(&bytes, limits) {
        Err(TooLarge { line }) => Err(FileEnd::TooLarge { line }),
        Ok(()) => match String::from_str(alloc, name) {
            Ok(name) => Ok(NamedText { name, bytes }),
            Err(_) => Err(FileEnd::NoMemory),
        },
    }
}

/// Reads a file, up to its first byte past a limit.
fn read_file<F: Folder>(
    alloc: Global,
    name: &str,
    folder: &mut F,
    limits: Limits,
) -> Result<NamedText, FileEnd>
    ensures { ReadsFile limits (run (F.state folder.old) (F.state folder.new)) name.now result }
{
    let mut bytes = Vec::new(alloc);
    match folder.read(name, limits.bytes as usize, &mut bytes) {
        Ok(Found::File) => text_within(alloc, name, bytes, limits),
        Ok(Found::Missing) => Err(FileEnd::Missing),
        Err(FolderEnd::Failed) => Err(FileEnd::Failed),
        Err(FolderEnd::NoMemory) => Err(FileEnd::NoMemory),
    }
}

/// Reads the files of these names, in their order, up to the first that is not read.
pub(crate) fn read_files<F: Folder>(
    alloc: Global,
    names: &[String],
    folder: &mut F,
    limits: Limits,
    texts: &mut Items<NamedText>,
) -> Result<(), FileEnd>
    requires { texts.old ≡ [] }
    ensures { ReadsAll limits (run (F.state folder.old) (F.state folder.new))
        (map string_bytes names.now) texts.new result }
{
    let mut left = names;
    'files: while let Some((name, rest)) = left.split_first() {
        let text = read_file(alloc, name.as_str(), folder, limits)?;
        texts.push(text)?;
        left = rest;
    }
    Ok(())
}
