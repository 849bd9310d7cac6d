ghost use Rattle.std.specs.Prelude.{◌≡◌, ◌≢◌, ◌∷◌, [], IfOk, false, map};
ghost use Rattle.std.specs.String.{string_bytes};
ghost use Rattle.std.specs.Str.{bytes_eq};
ghost use Rattle.std.specs.List.{IsDistinct};
ghost use Rattle.lk_io.specs.Run.{run};
ghost use Rattle.lk_io.specs.Source as source_specs;
ghost use Rattle.lk_io.specs.Folder as folder_specs;
ghost use Rattle.project_reading.specs.Texts.{text_seen};
ghost use Rattle.text_reading.specs.Texts as the_texts;
ghost use Rattle.text_reading.specs.Ends.{TextsAreRead, misses, placed, source_end};

use crate::folder_texts::{FileEnd, read_files};
use crate::limits::Limits;
use crate::reading::{ReadEnd, read_text};
use lk_io::{Folder, Source};
use project_reading::NamedText;
use sqlite_items::Items;
use std::alloc::{AllocError, Global};

/// Why the texts of a command were not read: a call of the source or a read of the folder failed, there is no file of the name
/// at that place, the text at that place has its first byte past a limit in that line, or memory ran out.
#[derive(Debug, Drop, PartialEq, Eq)]
pub enum TextsEnd {
    ReadFault,
    Missing { at: usize },
    TooLarge { at: usize, line: u64 },
    NoMemory,
}

/// The name at a place among those of a command. The text of the source is named `-`.
pub fn name_at(names: &[String], at: usize) -> &str
    ensures { result.now ≡ the_texts.name_at (map string_bytes names.now) at }
{
    match sqlite_items::at(names, at) {
        Some(name) => name.as_str(),
        None => "-",
    }
}

/// The end at the file of that place.
fn placed(end: FileEnd, at: usize) -> TextsEnd
    ensures { result ≡ placed end at }
{
    match end {
        FileEnd::Failed => TextsEnd::ReadFault,
        FileEnd::Missing => TextsEnd::Missing { at },
        FileEnd::TooLarge { line } => TextsEnd::TooLarge { at, line },
        FileEnd::NoMemory => TextsEnd::NoMemory,
    }
}

/// The texts of the files of these names.
fn folder_texts<F: Folder>(
    alloc: Global,
    names: &[String],
    folder: &mut F,
    limits: Limits,
) -> Result<Items<NamedText>, TextsEnd>
    requires some { names.now ≢ [] }
    requires distinct { IsDistinct bytes_eq (map string_bytes names.now) }
    ensures reads { (source : source_specs.SourceState) → TextsAreRead limits (map string_bytes names.now)
        (record { source = run source source; folder = run (F.state folder.old) (F.state folder.new) }) result }
    ensures missed { (F.state folder.old).missed ≡ false → (F.state folder.new).missed ≡ misses result }
{
    let mut texts = Items::new(alloc);
    match read_files(alloc, names, folder, limits, &mut texts) {
        Ok(()) => Ok(texts),
        Err(end) => Err(placed(end, texts.len())),
    }
}

/// The end at the text of the source.
fn source_end(end: ReadEnd) -> TextsEnd
    ensures { result ≡ source_end end }
{
    match end {
        ReadEnd::ReadFault => TextsEnd::ReadFault,
        ReadEnd::TooLarge { line } => TextsEnd::TooLarge { at: 0, line },
        ReadEnd::NoMemory => TextsEnd::NoMemory,
    }
}

/// The one text that is named `-`.
fn source_text(alloc: Global, bytes: Vec<u8>) -> Result<Items<NamedText>, AllocError>
    ensures { IfOk result (λ texts. map text_seen texts ≡ record { name = the_texts.source_name; bytes = bytes.items } ∷ []) }
{
    let name = String::from_str(alloc, "-")?;
    let mut texts = Items::new(alloc);
    texts.push(NamedText { name, bytes })?;
    Ok(texts)
}

/// The text of the source.
fn source_texts<S: Source>(
    alloc: Global,
    source: &mut S,
    limits: Limits,
) -> Result<Items<NamedText>, TextsEnd>
    ensures reads { (folder : folder_specs.FolderState) → TextsAreRead limits []
        (record { source = run (S.state source.old) (S.state source.new); folder = run folder folder }) result }
    ensures missed { misses result ≡ false }
{
    match read_text(alloc, source, limits) {
        Ok(bytes) => match source_text(alloc, bytes) {
            Ok(texts) => Ok(texts),
            Err(_) => Err(TextsEnd::NoMemory),
        },
        Err(end) => Err(source_end(end)),
    }
}

/// Reads the texts of a command that names these files, in their order, up to the first that is not read: where it names none, the
/// text of the source.
pub fn read_texts<S: Source, F: Folder>(
    alloc: Global,
    names: &[String],
    source: &mut S,
    folder: &mut F,
    limits: Limits,
) -> Result<Items<NamedText>, TextsEnd>
    requires { IsDistinct bytes_eq (map string_bytes names.now) }
    ensures reads { TextsAreRead limits (map string_bytes names.now)
        (record { source = run (S.state source.old) (S.state source.new); folder = run (F.state folder.old) (F.state folder.new) })
        result }
    ensures missed { (F.state folder.old).missed ≡ false → (F.state folder.new).missed ≡ misses result }
{
    if names.is_empty() {
        source_texts(alloc, source, limits)
    } else {
        folder_texts(alloc, names, folder, limits)
    }
}
