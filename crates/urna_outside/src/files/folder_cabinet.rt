ghost use Rattle.std.specs.Prelude.{◌≡◌, ◌≢◌, ◌↔◌, ◌≤◌, IfOk, None, vec_len};

use crate::files::file_lock::{FileLock, above_streams};
use crate::files::put_file::put_file;
use crate::take_counts::TakeCounts;
use crate::{Cabinet, CabinetError, Failed};
use std::alloc::Global;
use std::fs;
use std::io::{ErrorKind, Read};
use std::rt::Files;

/// The cabinet of a real run: files of the working folder, or of the path that a name gives. It tells nothing but
/// its three counts. What the file system does is trusted.
///
/// `take`: Missing is exactly where the open says that there is no such file or folder: an absent file, an absent folder
/// on its path, the empty name. Every other refusal of the system is Failed.
///
/// `put`: the name has the old file or the whole new one (docs/CRASH.md, "Real files", has one case where it hasn't). It is
/// made as `NAME.new` beside the name, where what an earlier run left is removed and no link is followed, and takes its name
/// when it is on the disk; then the folder is synced. A link of that name is replaced; a file of that name too, unless it is
/// locked, as a flash is that is open under another name. Every refusal of the system is Failed, want of memory too: a folder
/// of that name, an absent folder on its path, a `NAME.new` that another run makes or that can't be opened, a name or a path
/// that is too long with `.new`. A put that fails removes `NAME.new` again, unless it could not lock it: that may be another
/// run's, and if it isn't, the next put removes it.
#[derive(Drop)]
pub struct FolderCabinet<'a, R> {
    rt: &'a R,
    counts: TakeCounts,
}

impl<'a, R: Files> FolderCabinet<'a, R> {
    ghost use Rattle.urna_outside.specs.FolderCabinet.{folder_told};
    ghost use Rattle.urna_outside.specs.TakeCounts.{no_tally};

    pub fn new(rt: &'a R) -> FolderCabinet<'a, R>
        ensures { folder_told result ≡ record { tally = no_tally; files = None; calls = None } }
    {
        FolderCabinet {
            rt,
            counts: TakeCounts::new(),
        }
    }
}

/// What a refusal to open a file means.
fn error_of_open(kind: ErrorKind) -> CabinetError
    ensures missing { (result ≡ CabinetError.Missing) ↔ (kind ≡ ErrorKind.NotFound) }
    ensures memory { (result ≡ CabinetError.Memory) ↔ (kind ≡ ErrorKind.OutOfMemory) }
    ensures not_long { result ≢ CabinetError.TooLong }
{
    match kind {
        ErrorKind::NotFound => CabinetError::Missing,
        ErrorKind::OutOfMemory => CabinetError::Memory,
        _ => CabinetError::Failed,
    }
}

/// What a refusal to read a file means.
fn error_of_read(kind: ErrorKind) -> CabinetError
    ensures memory { (result ≡ CabinetError.Memory) ↔ (kind ≡ ErrorKind.OutOfMemory) }
    ensures failed { (result ≡ CabinetError.Failed) ↔ (kind ≢ ErrorKind.OutOfMemory) }
{
    if kind == ErrorKind::OutOfMemory {
        CabinetError::Memory
    } else {
        CabinetError::Failed
    }
}

/// Reads one byte more than the limit at most, so as to know a file that is too long.
fn read_file<R: Files>(
    rt: &R,
    alloc: Global,
    name: &str,
    limit: u32,
) -> Result<Vec<u8>, CabinetError>
    ensures { IfOk result (λ bytes. vec_len bytes ≤ limit) }
{
    let opened = match fs::open(rt, name) {
        Ok(opened) => opened,
        Err(error) => return Err(error_of_open(error.kind())),
    };
    let file = match above_streams(&opened) {
        Ok(file) => file,
        Err(error) => return Err(error_of_read(error.kind())),
    };
    let mut bytes = Vec::new(alloc);
    if let Err(error) = file.take(u64::from(limit) + 1).read_to_end(&mut bytes) {
        return Err(error_of_read(error.kind()));
    }
    if bytes.len() > limit as usize {
        return Err(CabinetError::TooLong);
    }
    Ok(bytes)
}

impl<'a, R: Files> Cabinet for FolderCabinet<'a, R>
where
    R::File: FileLock,
{
    ghost use Rattle.urna_outside.specs.FolderCabinet.{folder_told};

    ghost told = { λ cabinet. folder_told cabinet };

    fn take(&mut self, alloc: Global, name: &str, limit: u32) -> Result<Vec<u8>, CabinetError> {
        match read_file(self.rt, alloc, name, limit) {
            Ok(bytes) => Ok(bytes),
            Err(error) => {
                self.counts.count(error);
                Err(error)
            }
        }
    }

    fn put(&mut self, name: &str, bytes: &[u8]) -> Result<(), Failed> {
        match put_file(self.rt, name, bytes) {
            Ok(()) => Ok(()),
            Err(_) => {
                self.counts.count(CabinetError::Failed);
                Err(Failed)
            }
        }
    }
}
