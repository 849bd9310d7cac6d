ghost use Rattle.std.specs.Prelude.{◌≡◌, ◌++◌, ◌∷◌, [], List, IfOk, OnOk, map};
ghost use Rattle.project_reports.specs.Projects as project;
ghost use Rattle.project_reading.specs.Texts.{HasRead, IsReading, text_of, text_seen};

use crate::NoMemory;
use crate::texts::{NamedText, in_order};
use slang_tree::{Fault, File, FileFault, NamedFile, Text};
use sqlite_items::Items;
use std::alloc::{AllocError, Global};
use text_parser::{ParseEnd, parse};

/// What reading the texts of a project comes to: their trees, or the first faults of those that are no texts of the grammar, each
/// in the order of the files' names.
#[derive(Drop)]
pub enum Reading {
    Files(Items<NamedFile>),
    Faults(Items<FileFault>),
}

/// Adds the tree of a file.
fn add_file(
    alloc: Global,
    name: &str,
    tree: File,
    files: &mut Items<NamedFile>,
) -> Result<(), NoMemory>
    ensures { OnOk result (files.new ≡ files.old ++ record { name = name.now; tree = tree } ∷ []) }
{
    let name = Text::from_str(alloc, name)?;
    files.push(NamedFile { name, tree })?;
    Ok(())
}

/// Adds the fault of a file.
fn add_fault(
    alloc: Global,
    name: &str,
    fault: Fault,
    faults: &mut Items<FileFault>,
) -> Result<(), NoMemory>
    ensures { OnOk result (faults.new ≡ faults.old ++ record { file = name.now; fault = fault } ∷ []) }
{
    let file = Text::from_str(alloc, name)?;
    faults.push(FileFault { file, fault })?;
    Ok(())
}

/// Reads one text more.
fn read_text(
    alloc: Global,
    text: &NamedText,
    files: &mut Items<NamedFile>,
    faults: &mut Items<FileFault>,
) -> Result<(), NoMemory>
    ensures { OnOk result ((before : List project.NamedText) → HasRead before files.old faults.old
        → HasRead (before ++ text_seen text.now ∷ []) files.new faults.new) }
{
    match parse(alloc, text.bytes.as_slice()) {
        Ok(tree) => add_file(alloc, text.name.as_str(), tree, files),
        Err(ParseEnd::Fault(fault)) => add_fault(alloc, text.name.as_str(), fault, faults),
        Err(ParseEnd::NoMemory) => Err(AllocError),
    }
}

/// Reads the texts in this order.
fn read_all(
    alloc: Global,
    texts: &[&NamedText],
    files: &mut Items<NamedFile>,
    faults: &mut Items<FileFault>,
) -> Result<(), NoMemory>
    requires { HasRead [] files.old faults.old }
    ensures { OnOk result (HasRead (map text_of texts.now) files.new faults.new) }
{
    'texts: for text in texts {
        read_text(alloc, text, files, faults)?;
    }
    Ok(())
}

/// What reading comes to that has come to these files and faults.
fn reading_of(files: Items<NamedFile>, faults: Items<FileFault>) -> Reading
    ensures { (texts : List project.NamedText) → HasRead texts files faults → IsReading texts result }
{
    if faults.is_empty() {
        Reading::Files(files)
    } else {
        Reading::Faults(faults)
    }
}

/// Reads the texts of a project, in the order of the files' names.
pub fn read_files(alloc: Global, texts: &[NamedText]) -> Result<Reading, NoMemory>
    ensures { IfOk result (IsReading (project.in_order (map text_seen texts.now))) }
{
    let mut files = Items::new(alloc);
    let mut faults = Items::new(alloc);
    read_in_order(alloc, texts, &mut files, &mut faults)?;
    Ok(reading_of(files, faults))
}

/// Reads the texts in the order of their names.
fn read_in_order(
    alloc: Global,
    texts: &[NamedText],
    files: &mut Items<NamedFile>,
    faults: &mut Items<FileFault>,
) -> Result<(), NoMemory>
    requires { HasRead [] files.old faults.old }
    ensures { OnOk result (HasRead (project.in_order (map text_seen texts.now)) files.new faults.new) }
{
    let ordered = in_order(alloc, texts)?;
    read_all(alloc, ordered.as_slice(), files, faults)
}
