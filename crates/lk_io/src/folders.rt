ghost use Rattle.std.specs.Prelude.{◌≡◌, ◌^◌, ◌-◌, ◌<◌, []};
ghost use Rattle.lk_io.specs.Run.{run};
ghost use Rattle.lk_io.specs.Folder.{FolderState, Reads};

use std::alloc::AllocError;

/// What a read found.
#[derive(Clone, Copy, Debug, PartialEq, Eq)]
pub enum Found {
    File,
    Missing,
}

/// Why a folder did not read.
#[derive(Debug, Drop, PartialEq, Eq)]
pub enum FolderEnd {
    Failed,
    NoMemory,
}

impl From<AllocError> for FolderEnd {
    ghost use Rattle.std.specs.Prelude.{◌≡◌};
    ghost use Rattle.lk_io.specs.declared.folders.FolderEnd.TheVariants.{NoMemory};

    ghost from_gives = { λ _ e. e ≡ NoMemory };

    fn from(_refusal: AllocError) -> FolderEnd {
        FolderEnd::NoMemory
    }
}

/// A file in memory.
#[derive(Drop)]
pub struct NamedBytes {
    pub name: String,
    pub bytes: Vec<u8>,
}

/// Where files are read by their names.
pub trait Folder {
    ghost state: { Self → FolderState };

    /// Reads the file of that name into the empty buffer, up to the first byte past the limit.
    fn read(&mut self, name: &str, limit: usize, out: &mut Vec<u8>) -> Result<Found, FolderEnd>
        requires empty { out.old.items ≡ [] }
        requires limited { limit < 2 ^ 64 - 1 }
        ensures { Reads (run (state self.old) (state self.new)) name.now limit out.new.items result };
}
