//! Files that one run at a time has open.
use std::fs::{OpenFile, OpenOptions};
use std::io::ErrorKind;
use std::os::unix::fs::MetadataExt;
use std::rt::Files;
use std::{fs, io};

/// A lock on a whole file. The system frees it when the file is closed, so also when the program is killed.
pub trait FileLock {
    /// Fails where the file is locked already: by another program, or because it has another name under which it was
    /// opened before.
    fn try_lock(&self) -> io::Result<()>;
}

impl FileLock for fs::File {
    fn try_lock(&self) -> io::Result<()> {
        fs::File::try_lock(self)?;
        Ok(())
    }
}

/// Fails where the name doesn't lead to this open file.
pub(crate) fn check_name<R: Files>(rt: &R, opened: &R::File, name: &str) -> io::Result<()> {
    let file = opened.metadata()?;
    let named = fs::metadata(rt, name)?;
    if file.dev() == named.dev() && file.ino() == named.ino() {
        Ok(())
    } else {
        Err(io::Error::from(ErrorKind::ResourceBusy))
    }
}

/// Locks a file that was opened under this name, for as long as it is open. Fails where the name leads to another file by
/// now: who had the lock before may have removed this one.
pub(crate) fn lock_named<R: Files>(rt: &R, opened: &R::File, name: &str) -> io::Result<()>
where
    R::File: FileLock,
{
    opened.try_lock()?;
    check_name(rt, opened, name)
}

/// Fails where a file of this name is locked, whoever has it locked: a flash that is open under another name is. A link isn't
/// followed. A file that this run may not open is no flash of it; where an open, or the look at the name, fails otherwise, nothing is known
/// of the file.
pub(crate) fn check_free<R: Files>(rt: &R, name: &str) -> io::Result<()>
where
    R::File: FileLock,
{
    match fs::symlink_metadata(rt, name) {
        Ok(named) if named.is_file() => try_lock_of(rt, name),
        Ok(_) => Ok(()),
        Err(error) => match error.kind() {
            ErrorKind::NotFound => Ok(()),
            _ => Err(error),
        },
    }
}

/// The same of a file that has the name. It is opened for writing too, without which some file systems give no lock.
fn try_lock_of<R: Files>(rt: &R, name: &str) -> io::Result<()>
where
    R::File: FileLock,
{
    match OpenOptions::new().read(true).write(true).open(rt, name) {
        Ok(file) => file.try_lock(),
        Err(error) => match error.kind() {
            ErrorKind::NotFound | ErrorKind::PermissionDenied => Ok(()),
            _ => Err(error),
        },
    }
}

/// The same open file, with its lock, under a descriptor above those of the three standard streams. The system opens a
/// file under the lowest free descriptor: where standard output is closed, what is shown would be written into that file.
pub(crate) fn above_streams<F: OpenFile>(opened: &F) -> io::Result<F> {
    opened.try_clone()
}
