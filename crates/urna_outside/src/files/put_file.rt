//! A file that is put whole or not at all.
ghost use Rattle.std.specs.Prelude.{◌++◌, ◌≡◌, IfOk};

use crate::files::file_lock::{FileLock, check_free, check_name};
use crate::files::new_file::{create, fill, remove_own, sync_folder};
use std::io::ErrorKind;
use std::rt::Files;
use std::{fs, io};

/// How many bytes a path of the system has at most, with a zero byte at its end.
const PATH_MAX: usize = 4096;

/// What stands behind a file's name while the file is made.
const UNFINISHED: &str = ".new";

/// The name of a file while it is made, in the buffer. It has room there, or the system has no such path.
fn unfinished_name<'a>(name: &str, buffer: &'a mut [u8; PATH_MAX]) -> io::Result<&'a str>
    ensures { IfOk result (λ unfinished. unfinished.now ≡ name.now ++ UNFINISHED.now) }
{
    let end = name.len() + UNFINISHED.len();
    if PATH_MAX < end {
        return Err(io::Error::from(ErrorKind::InvalidFilename));
    }
    buffer[..name.len()].copy_from_slice(name.as_bytes());
    buffer[name.len()..end].copy_from_slice(UNFINISHED.as_bytes());
    match str::from_utf8(&buffer[..end]) {
        Ok(unfinished) => Ok(unfinished),
        Err(_) => Err(io::Error::from(ErrorKind::InvalidData)),
    }
}

/// The folder in which a name stands.
fn folder_of(name: &str) -> &str {
    match name.rsplit_once('/') {
        None => ".",
        Some(("", _)) => "/",
        Some((folder, _)) => folder,
    }
}

/// Fills a new file and gives it its name, in the stead of a file or a link that has it. A folder of that name stays, and
/// so does a flash that is open; both are faults. Where a link stood under the other name, a second run may have removed this
/// file in its place.
fn fill_and_rename<R: Files>(
    rt: &R,
    created: &R::File,
    unfinished: &str,
    name: &str,
    mut bytes: &[u8],
) -> io::Result<R::File>
where
    R::File: FileLock,
{
    let file = fill(created, &mut bytes)?;
    check_name(rt, &file, unfinished)?;
    check_free(rt, name)?;
    fs::rename(rt, unfinished, name)?;
    Ok(file)
}

/// Puts a file. It gets its name only when all bytes are on the disk: where the power goes before that, the name is as it
/// was. Where the making fails, the other name is removed.
pub(crate) fn put_file<R: Files>(rt: &R, name: &str, bytes: &[u8]) -> io::Result<()>
where
    R::File: FileLock,
{
    let mut buffer = [0; PATH_MAX];
    let unfinished = unfinished_name(name, &mut buffer)?;
    let created = create(rt, unfinished)?;
    let file = match fill_and_rename(rt, &created, unfinished, name, bytes) {
        Ok(file) => file,
        Err(error) => {
            let _ = remove_own(rt, &created, unfinished);
            return Err(error);
        }
    };
    // That second run may have done so since.
    check_name(rt, &file, name)?;
    sync_folder(rt, folder_of(name))
}
