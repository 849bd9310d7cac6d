ghost use Rattle.std.specs.Prelude.{◌≡◌, ◌^◌, ◌-◌, ◌+◌, ◌≤◌, ◌<◌, [], length, OnErr, false, None};
ghost use Rattle.lk_io.specs.Run.{one_more};

use crate::streams::is_interrupted;
use crate::{Folder, FolderEnd, Found};
use std::fs::{File, Files};
use std::io::{ErrorKind, Read};
use std::marker::Model;

/// The files of the system. It tells no file, and counts the reads that failed.
#[derive(Drop)]
pub struct OsFolder<'a, R: Files> {
    files: &'a R,
    faults: u64,
    missed: bool,
}

impl<'a, R: Files> Model for OsFolder<'a, R> {
    ghost use Rattle.std.specs.Prelude.{None};
    ghost use Rattle.lk_io.specs.Folder.{FolderState};

    ghost Value = { FolderState };

    ghost view = { λ s. record { files = None; faults = s.faults; missed = s.missed } };
}

impl<'a, R: Files> OsFolder<'a, R> {
    pub fn new(files: &'a R) -> OsFolder<'a, R>
        ensures { result ≡ record { files = None; faults = 0; missed = false } }
    {
        OsFolder {
            files,
            faults: 0,
            missed: false,
        }
    }

    fn fail(&mut self) -> FolderEnd
        ensures failed { result ≡ FolderEnd.Failed }
        ensures counted { self.new ≡ record self.old { faults = one_more self.old.faults } }
    {
        self.faults = self.faults.saturating_add(1);
        FolderEnd::Failed
    }
}

impl<'a, R: Files> Folder for OsFolder<'a, R> {
    ghost state = { λ s. s };

    fn read(&mut self, name: &str, limit: usize, out: &mut Vec<u8>) -> Result<Found, FolderEnd> {
        self.missed = false;
        match File::open(self.files, name) {
            Ok(mut file) => match read_front(&mut file, limit, out) {
                Ok(()) => Ok(Found::File),
                Err(FolderEnd::NoMemory) => Err(FolderEnd::NoMemory),
                Err(FolderEnd::Failed) => Err(self.fail()),
            },
            Err(e) if e.kind() == ErrorKind::NotFound => {
                self.missed = true;
                Ok(Found::Missing)
            }
            Err(_) => Err(self.fail()),
        }
    }
}

/// Reads into the empty buffer up to the first byte past the limit.
fn read_front<R: Read>(reader: &mut R, limit: usize, out: &mut Vec<u8>) -> Result<(), FolderEnd>
    requires empty { out.old.items ≡ [] }
    requires limited { limit < 2 ^ 64 - 1 }
    ensures bounded { length out.new.items ≤ limit + 1 }
    ensures emptied { OnErr result (out.new.items ≡ []) }
{
    let result = read_pieces(reader, limit, out);
    if result.is_err() {
        out.clear();
    }
    result
}

/// Reads piece by piece until the end, a fault or the first byte past the limit.
fn read_pieces<R: Read>(reader: &mut R, limit: usize, out: &mut Vec<u8>) -> Result<(), FolderEnd>
    requires empty { out.old.items ≡ [] }
    requires limited { limit < 2 ^ 64 - 1 }
    ensures bounded { length out.new.items ≤ limit + 1 }
{
    let mut piece = [0; 4096];
    'pieces: for _ in 0..u64::MAX {
        match reader.read(&mut piece) {
            Ok(0) => return Ok(()),
            Ok(n) => {
                let room = limit + 1 - out.len();
                out.extend_from_slice(&piece[..n.min(room)])?;
                if n >= room {
                    return Ok(());
                }
            }
            Err(e) => {
                if !is_interrupted(&e) {
                    return Err(FolderEnd::Failed);
                }
            }
        }
    }
    Err(FolderEnd::Failed)
}
