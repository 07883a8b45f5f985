//! Two flash devices as files of the working folder. Each is opened and locked at the first call on it, and made where it
//! is missing.
use crate::Dev;
use crate::files::file_lock::FileLock;
use crate::files::flash_file::FlashFile;
use std::fs::OpenFile;
use std::io;
use std::io::{Read, Seek, Write};
use std::rt::Files;

#[derive(Drop)]
pub(crate) struct FlashFiles<F> {
    internal: Option<FlashFile<F>>,
    external: Option<FlashFile<F>>,
}

impl<F: Read + Write + Seek + OpenFile + FileLock + Drop> FlashFiles<F> {
    pub(crate) fn new() -> FlashFiles<F> {
        FlashFiles {
            internal: None,
            external: None,
        }
    }

    /// The file of a device, which has this size.
    fn file<R: Files<File = F>>(
        &mut self,
        rt: &R,
        dev: Dev,
        size: u32,
    ) -> io::Result<&mut FlashFile<F>> {
        let place = match dev {
            Dev::Internal => &mut self.internal,
            Dev::External => &mut self.external,
        };
        let file = match place {
            Some(file) => file,
            None => place.insert(FlashFile::open(rt, dev, size)?),
        };
        file.check_length(size)?;
        Ok(file)
    }

    pub(crate) fn read<R: Files<File = F>>(
        &mut self,
        rt: &R,
        dev: Dev,
        size: u32,
        at: u32,
        into: &mut [u8],
    ) -> io::Result<()> {
        self.file(rt, dev, size)?.read(at, into)
    }

    pub(crate) fn write<R: Files<File = F>>(
        &mut self,
        rt: &R,
        dev: Dev,
        size: u32,
        at: u32,
        bytes: &[u8],
    ) -> io::Result<()> {
        self.file(rt, dev, size)?.write(at, bytes)
    }

    pub(crate) fn sync<R: Files<File = F>>(
        &mut self,
        rt: &R,
        dev: Dev,
        size: u32,
    ) -> io::Result<()> {
        self.file(rt, dev, size)?.sync(rt)
    }
}
