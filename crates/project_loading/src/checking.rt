ghost use Rattle.std.specs.Prelude.{◌≡◌, ◌≢◌, [], IfErr, IfOk, IsErrAnd, MatchResult, OnOk, map, ⊤};
ghost use Rattle.height_rules.specs.Faults.{whole_faults};
ghost use Rattle.typed_texts.specs.TypedProjects as typed;
ghost use Rattle.project_files.specs.Files.{file_seen};
ghost use Rattle.project_making.specs.Projects.{IsTypedOf};
ghost use Rattle.project_loading.specs.Ends.{AreFaultsOf, IfFaults, IsWell};

use lk_programs::Typed;
use project_judging::first_faults;
use project_making::typed_project;
use slang_tree::{FileFault, NamedFile};
use sqlite_items::Items;
use std::alloc::Global;

/// Why a project has no typed program.
#[derive(Drop)]
pub enum CheckEnd {
    /// The first fault of each file that has one, in the order of the bytes of the files' names. There is at least one.
    Faults(Items<FileFault>),
    NoMemory,
}

/// The typed program of a project without faults.
fn made_program(alloc: Global, files: &[NamedFile]) -> Result<Typed, CheckEnd>
    requires { whole_faults (map file_seen files.now) ≡ [] }
    ensures typed { IfOk result (λ made. IsTypedOf made (typed.typed_project (map file_seen files.now))) }
    ensures end { IfErr result (λ end. end ≡ CheckEnd.NoMemory) }
{
    match typed_project(alloc, files) {
        Ok(made) => Ok(made),
        Err(_) => Err(CheckEnd::NoMemory),
    }
}

/// The typed program of a project that has these first faults, or the faults.
fn program_unless(
    alloc: Global,
    files: &[NamedFile],
    faults: Items<FileFault>,
) -> Result<Typed, CheckEnd>
    requires { faults ≡ whole_faults (map file_seen files.now) }
    ensures typed { IfOk result (λ made. IsTypedOf made (typed.typed_project (map file_seen files.now))) }
    ensures faultless { OnOk result (whole_faults (map file_seen files.now) ≡ []) }
    ensures faults { IfErr result (λ end. IfFaults end (AreFaultsOf (map file_seen files.now))) }
{
    if faults.is_empty() {
        made_program(alloc, files)
    } else {
        Err(CheckEnd::Faults(faults))
    }
}

/// The typed program of a project, or its first faults.
fn found_program(alloc: Global, files: &[NamedFile]) -> Result<Typed, CheckEnd>
    ensures typed { IfOk result (λ made. IsTypedOf made (typed.typed_project (map file_seen files.now))) }
    ensures faultless { OnOk result (whole_faults (map file_seen files.now) ≡ []) }
    ensures faults { IfErr result (λ end. IfFaults end (AreFaultsOf (map file_seen files.now))) }
{
    match first_faults(alloc, files) {
        Err(_) => Err(CheckEnd::NoMemory),
        Ok(faults) => program_unless(alloc, files, faults),
    }
}

/// The typed program of a project of files, where it is well typed and nothing in it is too high; else its first faults.
pub fn check_program(alloc: Global, files: &[NamedFile]) -> Result<Typed, CheckEnd>
    ensures typed { IfOk result (λ made. IsTypedOf made (typed.typed_project (map file_seen files.now))) }
    ensures well { OnOk result (IsWell (map file_seen files.now)) }
    ensures only { IsWell (map file_seen files.now) → MatchResult result (λ _. ⊤) (λ end. end ≡ CheckEnd.NoMemory) }
    ensures faults { IfErr result (λ end. IfFaults end (AreFaultsOf (map file_seen files.now))) }
    ensures only_faults { whole_faults (map file_seen files.now) ≢ []
        → IsErrAnd result (λ end. IfFaults end (λ told. told ≡ whole_faults (map file_seen files.now))) }
{
    found_program(alloc, files)
}
