//! A flash device as a file of the working folder.
use crate::Dev;
use crate::files::file_lock::{FileLock, above_streams, check_name, lock_named};
use crate::files::new_file::{create, fill, remove_own, sync_folder};
use std::fs::{OpenFile, OpenOptions};
use std::io::{ErrorKind, Read, Seek, SeekFrom, Write};
use std::rt::Files;
use std::{fs, io};

#[derive(Drop)]
pub(crate) struct FlashFile<F> {
    file: F,
    // A sync of this run has brought the file's name to the disk.
    is_listed: bool,
}

fn file_name(dev: Dev) -> &'static str {
    match dev {
        Dev::Internal => "internal.flash",
        Dev::External => "external.flash",
    }
}

/// The name of the file while it is made.
fn unfinished_name(dev: Dev) -> &'static str {
    match dev {
        Dev::Internal => "internal.flash.new",
        Dev::External => "external.flash.new",
    }
}

/// Fills a new file with zeros and gives it the flash's name. The zeros are written, since a file that was only made
/// long would show a full disk later. A name can't be given where something has it: a file that came meanwhile stays,
/// and so does a link that leads nowhere.
fn fill_and_name<R: Files>(rt: &R, created: &R::File, dev: Dev, size: u32) -> io::Result<R::File> {
    let file = fill(created, &mut io::repeat(0).take(u64::from(size)))?;
    fs::hard_link(rt, unfinished_name(dev), file_name(dev))?;
    // Where a link stood under the other name, a second run may have removed this file in its place.
    check_name(rt, &file, file_name(dev))?;
    Ok(file)
}

/// Makes a flash of zeros where nothing has its name. It gets the name only when all zeros are on the disk: where the
/// power goes before that, the file is missing and not too short.
fn make<R: Files>(rt: &R, dev: Dev, size: u32) -> io::Result<R::File>
where
    R::File: FileLock,
{
    let name = unfinished_name(dev);
    let created = create(rt, name)?;
    let made = fill_and_name(rt, &created, dev, size);
    let removed = remove_own(rt, &created, name);
    let file = made?;
    removed?;
    Ok(file)
}

fn open_or_make<R: Files>(rt: &R, dev: Dev, size: u32) -> io::Result<R::File>
where
    R::File: FileLock,
{
    let name = file_name(dev);
    match OpenOptions::new().read(true).write(true).open(rt, name) {
        Ok(opened) => {
            lock_named(rt, &opened, name)?;
            above_streams(&opened)
        }
        Err(error) if error.kind() == ErrorKind::NotFound => make(rt, dev, size),
        Err(error) => Err(error),
    }
}

impl<F: Read + Write + Seek + OpenFile + FileLock + Drop> FlashFile<F> {
    /// The flash for this run alone.
    pub(crate) fn open<R: Files<File = F>>(
        rt: &R,
        dev: Dev,
        size: u32,
    ) -> io::Result<FlashFile<F>> {
        Ok(FlashFile {
            file: open_or_make(rt, dev, size)?,
            is_listed: false,
        })
    }

    /// Fails where the file has another length.
    pub(crate) fn check_length(&self, size: u32) -> io::Result<()> {
        if self.file.metadata()?.len() == u64::from(size) {
            Ok(())
        } else {
            Err(io::Error::from(ErrorKind::InvalidData))
        }
    }

    pub(crate) fn read(&mut self, at: u32, into: &mut [u8]) -> io::Result<()> {
        self.file.seek(SeekFrom::Start(u64::from(at)))?;
        self.file.read_exact(into)
    }

    pub(crate) fn write(&mut self, at: u32, bytes: &[u8]) -> io::Result<()> {
        self.file.seek(SeekFrom::Start(u64::from(at)))?;
        self.file.write_all(bytes)
    }

    /// Brings the bytes to the disk, and at the first time the folder's entry too, which this run or one that was
    /// stopped has made.
    pub(crate) fn sync<R: Files<File = F>>(&mut self, rt: &R) -> io::Result<()> {
        self.file.sync_data()?;
        if !self.is_listed {
            sync_folder(rt, ".")?;
            self.is_listed = true;
        }
        Ok(())
    }
}
