ghost use Rattle.std.specs.Prelude.{◌≡◌, ◌^◌, ◌-◌, ◌<◌, ◌↔◌, false, [], Contains, IsErrOf, MatchOption, Some, None};
ghost use Rattle.lk_io.specs.Run.{run, one_more};
ghost use Rattle.lk_io.specs.Folder.{Reads, file_of};
ghost use Rattle.lk_io.specs.Memory.{named};

use crate::calls::Calls;
use crate::{Folder, FolderEnd, Found, NamedBytes};
use std::marker::Model;

/// A folder in memory.
#[derive(Drop)]
pub struct MemFolder {
    files: Vec<NamedBytes>,
    calls: Calls,
    missed: bool,
}

impl Model for MemFolder {
    ghost use Rattle.lk_io.specs.Memory.{FolderInMemory, named};

    ghost Value = { FolderInMemory };

    ghost view = { λ s. record {
      files = named s.files.items;
      fail_at = s.calls.fail_at.items;
      calls = s.calls.made;
      faults = s.calls.failed;
      missed = s.missed;
    } };
}

impl MemFolder {
    /// A folder of these files, of which the first of a name is read. The reads listed in `fail_at`, counted from 1, fail.
    pub fn new(files: Vec<NamedBytes>, fail_at: Vec<u64>) -> MemFolder
        ensures { result ≡ record { files = named files.items; fail_at = fail_at.items; calls = 0; faults = 0; missed = false } }
    {
        MemFolder {
            files,
            calls: Calls::new(fail_at),
            missed: false,
        }
    }
}

/// The bytes of the first file of a name.
fn find<'a>(files: &'a [NamedBytes], name: &str) -> Option<&'a [u8]>
    ensures found { MatchOption result (file_of (named files.now) name.now ≡ None) (λ bytes. file_of (named files.now) name.now ≡ Some bytes.now) }
{
    'files: for file in files {
        if file.name.as_str() == name {
            return Some(&file.bytes);
        }
    }
    None
}

impl Folder for MemFolder {
    ghost use Rattle.lk_io.specs.Memory.{folder_state, ReadsMemory};

    ghost state = { folder_state };

    fn read(&mut self, name: &str, limit: usize, out: &mut Vec<u8>) -> Result<Found, FolderEnd>
        requires empty { out.old.items ≡ [] }
        requires limited { limit < 2 ^ 64 - 1 }
        ensures reads { Reads (run (folder_state self.old) (folder_state self.new)) name.now limit out.new.items result }
        ensures listed { IsErrOf result FolderEnd.Failed ↔ Contains self.old.fail_at (one_more self.old.calls) }
        ensures exact { ReadsMemory self.old result self.new }
    {
        self.missed = false;
        if self.calls.begin().is_err() {
            return Err(FolderEnd::Failed);
        }
        let Some(bytes) = find(&self.files, name) else {
            self.missed = true;
            return Ok(Found::Missing);
        };
        out.extend_from_slice(&bytes[..bytes.len().min(limit + 1)])?;
        Ok(Found::File)
    }
}
