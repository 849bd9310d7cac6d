ghost use Rattle.std.specs.Prelude.{◌≡◌, List, IfErr, IfOk, IsErrAnd, MatchResult, map};
ghost use Rattle.slang_tree.specs.declared.place.FileFault.{FileFault};
ghost use Rattle.type_rules.specs.Projects.{FileTree};
ghost use Rattle.typed_texts.specs.TypedProjects as typed;
ghost use Rattle.project_reports.specs.Projects as project;
ghost use Rattle.project_reading.specs.Texts.{IsReading, text_seen};
ghost use Rattle.project_making.specs.Projects.{IsTypedOf};
ghost use Rattle.project_loading.specs.Ends.{IfFaults, IsProgramOf};

use crate::checking::{CheckEnd, check_program};
use lk_programs::Typed;
use project_reading::{NamedText, Reading, read_files};
use std::alloc::Global;

/// What reading has come to, checked.
fn checked(alloc: Global, reading: Reading) -> Result<Typed, CheckEnd>
    ensures typed { IfOk result (λ made. (texts : List project.NamedText) → IsReading (project.in_order texts) reading → IsProgramOf texts made) }
    ensures faults { IfErr result (λ end. (texts : List project.NamedText) → IsReading (project.in_order texts) reading
        → IfFaults end (project.HasFaults texts)) }
{
    match reading {
        Reading::Faults(faults) => Err(CheckEnd::Faults(faults)),
        Reading::Files(files) => check_program(alloc, files.as_slice()),
    }
}

/// What the texts of a project come to.
fn found(alloc: Global, texts: &[NamedText]) -> Result<Typed, CheckEnd>
    ensures typed { IfOk result (IsProgramOf (map text_seen texts.now)) }
    ensures faults { IfErr result (λ end. IfFaults end (project.HasFaults (map text_seen texts.now))) }
{
    match read_files(alloc, texts) {
        Err(_) => Err(CheckEnd::NoMemory),
        Ok(reading) => checked(alloc, reading),
    }
}

/// The typed program of the texts of a project, or the first fault of each file that has one. Where some text is none of the
/// grammar, only such texts have faults.
///
/// A line, a column or a number of the program past the greatest number is want of memory.
pub fn load(alloc: Global, texts: &[NamedText]) -> Result<Typed, CheckEnd>
    ensures typed { IfOk result (IsProgramOf (map text_seen texts.now)) }
    ensures only { (files : List FileTree) → project.IsProject (map text_seen texts.now) files
        → MatchResult result (λ made. IsTypedOf made (typed.typed_project files)) (λ end. end ≡ CheckEnd.NoMemory) }
    ensures faults { IfErr result (λ end. IfFaults end (project.HasFaults (map text_seen texts.now))) }
    ensures only_faults { (faults : List FileFault) → project.HasFaults (map text_seen texts.now) faults
        → IsErrAnd result (λ end. IfFaults end (λ told. told ≡ faults)) }
{
    found(alloc, texts)
}
