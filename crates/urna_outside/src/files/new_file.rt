//! A new file is made under another name than its own, and gets its own only when it is whole on the disk.
use crate::files::file_lock::{FileLock, above_streams, check_name, lock_named};
use std::fs::{OpenFile, OpenOptions};
use std::io::{ErrorKind, Read, Write};
use std::rt::Files;
use std::{fs, io};

/// Removes what a run that was cut off has left under the other name. A link is removed, and not what it leads to; a file
/// only where it isn't the one that another run makes, which has it locked.
fn remove_leftover<R: Files>(rt: &R, name: &str) -> io::Result<()>
where
    R::File: FileLock,
{
    if fs::symlink_metadata(rt, name)?.is_file() {
        let leftover = fs::open(rt, name)?;
        lock_named(rt, &leftover, name)?;
        // Before the lock is given back.
        fs::remove_file(rt, name)
    } else {
        fs::remove_file(rt, name)
    }
}

/// A new file under the other name, which is this run's alone.
pub(crate) fn create<R: Files>(rt: &R, name: &str) -> io::Result<R::File>
where
    R::File: FileLock,
{
    let mut how = OpenOptions::new();
    how.read(true).write(true).create_new(true);
    let created = match how.open(rt, name) {
        Err(error) if error.kind() == ErrorKind::AlreadyExists => {
            remove_leftover(rt, name)?;
            how.open(rt, name)?
        }
        created => created?,
    };
    lock_named(rt, &created, name)?;
    Ok(created)
}

/// Fills a new file with all that the reader gives, and brings it to the disk. Where this fails, the file has its lock still.
pub(crate) fn fill<F: Write + OpenFile + Drop, S: Read>(
    created: &F,
    content: &mut S,
) -> io::Result<F> {
    let mut file = above_streams(created)?;
    io::copy(content, &mut file)?;
    file.sync_all()?;
    Ok(file)
}

/// Removes the other name of a new file, while it is locked. Where a link stood there, a second run may have removed this file
/// in its place, and what has the name by now stays.
pub(crate) fn remove_own<R: Files>(rt: &R, created: &R::File, name: &str) -> io::Result<()> {
    check_name(rt, created, name)?;
    fs::remove_file(rt, name)
}

/// Brings the names of a folder to the disk.
pub(crate) fn sync_folder<R: Files>(rt: &R, folder: &str) -> io::Result<()> {
    fs::open(rt, folder)?.sync_all()
}
