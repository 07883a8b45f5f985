//! A runtime over the real files of a test. It notes what is done to them, and fails where that is asked.
use std::alloc::{Allocator, Global};
use std::cell::RefCell;
use std::fmt::Display;
use std::fs::{Metadata, OpenFile, OpenOptions};
use std::io::{ErrorKind, Read, Seek, SeekFrom, Write};
use std::rt::Files;
use std::{fs, io};
use urna_outside::FileLock;

/// The folder of a test that puts a file elsewhere than in the working folder.
pub(crate) const OWN_FOLDER: &str = "own.tmp";

#[derive(Clone, Copy, PartialEq, Eq)]
pub(crate) enum Step {
    Open,
    OpenFolder,
    OpenOwnFolder,
    Create,
    Duplicate,
    Lock,
    Write,
    SyncData,
    SyncAll,
    SyncFolder,
    Link,
    Rename,
    // Of a file that is locked, and of another.
    Remove,
    RemoveUnlocked,
    Show,
}

/// What of it fails.
#[derive(Clone, Copy)]
pub(crate) enum Fault {
    Nothing,
    Kind(Step),
    Everything(ErrorKind),
    // A file that was synced loses its name to another one.
    Stolen,
}

#[derive(Drop)]
pub(crate) struct Watch {
    steps: RefCell<Vec<Step>>,
    fault: Fault,
}

impl Watch {
    pub(crate) fn new(alloc: Global, fault: Fault) -> Watch {
        Watch {
            steps: RefCell::new(Vec::new(alloc)),
            fault,
        }
    }

    /// The steps since this was asked last.
    pub(crate) fn take_steps(&self, alloc: Global) -> io::Result<Vec<Step>> {
        match self.steps.try_replace(Vec::new(alloc)) {
            Ok(steps) => Ok(steps),
            Err(_) => Err(io::Error::from(ErrorKind::ResourceBusy)),
        }
    }

    fn note(&self, step: Step) -> io::Result<()> {
        let Ok(mut steps) = self.steps.try_borrow_mut() else {
            return Err(io::Error::from(ErrorKind::ResourceBusy));
        };
        if steps.push(step).is_err() {
            return Err(io::Error::from(ErrorKind::OutOfMemory));
        }
        self.fail_at(step)
    }

    /// Whether a name is given to another file now.
    fn steals(&self) -> bool {
        match self.fault {
            Fault::Stolen => match self.steps.try_borrow() {
                Ok(steps) => steps.last().copied() == Some(Step::SyncAll),
                Err(_) => false,
            },
            _ => false,
        }
    }

    fn fail_at(&self, step: Step) -> io::Result<()> {
        match self.fault {
            Fault::Nothing | Fault::Stolen => Ok(()),
            Fault::Kind(failing) => {
                if failing == step {
                    Err(io::Error::from(ErrorKind::StorageFull))
                } else {
                    Ok(())
                }
            }
            Fault::Everything(kind) => Err(io::Error::from(kind)),
        }
    }
}

#[derive(Clone, Copy)]
pub(crate) struct Watched<'a> {
    pub(crate) rt: &'a HostRuntime,
    pub(crate) watch: &'a Watch,
}

#[derive(Drop)]
pub(crate) struct WatchedFile<'a> {
    file: fs::File,
    is_folder: bool,
    watch: &'a Watch,
}

/// Whether the file of a name is locked.
fn is_locked(rt: &HostRuntime, path: &str) -> bool {
    match fs::open(rt, path) {
        Ok(file) => file.try_lock().is_err(),
        Err(_) => false,
    }
}

impl<'a> Files for Watched<'a> {
    type File = WatchedFile<'a>;

    type Dir = fs::File;

    fn open_file(&self, how: &OpenOptions, path: &str) -> io::Result<WatchedFile<'a>> {
        let is_own = path == OWN_FOLDER;
        let is_folder = is_own || path == ".";
        self.watch.note(if is_own {
            Step::OpenOwnFolder
        } else if is_folder {
            Step::OpenFolder
        } else if how.asks_create_new() {
            Step::Create
        } else {
            Step::Open
        })?;
        Ok(WatchedFile {
            file: self.rt.open_file(how, path)?,
            is_folder,
            watch: self.watch,
        })
    }

    fn open_dir(&self, _path: &str) -> io::Result<fs::File> {
        Err(io::Error::from(ErrorKind::Unsupported))
    }

    fn metadata(&self, path: &str) -> io::Result<Metadata> {
        if self.watch.steals() {
            self.rt.remove_file(path)?;
            fs::write(self.rt, path, b"stolen")?;
        }
        self.rt.metadata(path)
    }

    fn symlink_metadata(&self, path: &str) -> io::Result<Metadata> {
        self.rt.symlink_metadata(path)
    }

    fn copy(&self, _from: &str, _to: &str) -> io::Result<u64> {
        Err(io::Error::from(ErrorKind::Unsupported))
    }

    fn rename(&self, from: &str, to: &str) -> io::Result<()> {
        self.watch.note(Step::Rename)?;
        self.rt.rename(from, to)
    }

    fn remove_file(&self, path: &str) -> io::Result<()> {
        self.watch.note(if is_locked(self.rt, path) {
            Step::Remove
        } else {
            Step::RemoveUnlocked
        })?;
        self.rt.remove_file(path)
    }

    fn create_dir(&self, _path: &str) -> io::Result<()> {
        Err(io::Error::from(ErrorKind::Unsupported))
    }

    fn remove_dir(&self, _path: &str) -> io::Result<()> {
        Err(io::Error::from(ErrorKind::Unsupported))
    }

    fn remove_dir_all<B: Allocator>(&self, _alloc: B, _path: &str) -> io::Result<()> {
        Err(io::Error::from(ErrorKind::Unsupported))
    }

    fn hard_link(&self, original: &str, link: &str) -> io::Result<()> {
        self.watch.note(Step::Link)?;
        self.rt.hard_link(original, link)
    }
}

impl<'a> Print for Watched<'a> {
    fn print<D: Display + Drop>(&self, value: D) -> io::Result<()> {
        self.rt.print(value)
    }

    fn println<D: Display + Drop>(&self, value: D) -> io::Result<()> {
        self.rt.println(value)
    }

    fn write_all(&self, bytes: &[u8]) -> io::Result<()> {
        self.watch.note(Step::Show)?;
        self.rt.write_all(bytes)
    }
}

impl<'a> Read for WatchedFile<'a> {
    fn read(&mut self, buf: &mut [u8]) -> io::Result<usize> {
        self.file.read(buf)
    }
}

impl<'a> Write for WatchedFile<'a> {
    fn write(&mut self, buf: &[u8]) -> io::Result<usize> {
        self.watch.note(Step::Write)?;
        self.file.write(buf)
    }

    fn flush(&mut self) -> io::Result<()> {
        self.file.flush()
    }
}

impl<'a> Seek for WatchedFile<'a> {
    fn seek(&mut self, to: SeekFrom) -> io::Result<u64> {
        self.file.seek(to)
    }
}

impl<'a> OpenFile for WatchedFile<'a> {
    fn metadata(&self) -> io::Result<Metadata> {
        self.file.metadata()
    }

    fn set_len(&self, size: u64) -> io::Result<()> {
        self.file.set_len(size)
    }

    fn sync_all(&self) -> io::Result<()> {
        self.watch.note(if self.is_folder {
            Step::SyncFolder
        } else {
            Step::SyncAll
        })?;
        self.file.sync_all()
    }

    fn sync_data(&self) -> io::Result<()> {
        self.watch.note(Step::SyncData)?;
        self.file.sync_data()
    }

    fn try_clone(&self) -> io::Result<WatchedFile<'a>> {
        self.watch.note(Step::Duplicate)?;
        Ok(WatchedFile {
            file: self.file.try_clone()?,
            is_folder: self.is_folder,
            watch: self.watch,
        })
    }
}

impl<'a> FileLock for WatchedFile<'a> {
    fn try_lock(&self) -> io::Result<()> {
        self.watch.note(Step::Lock)?;
        FileLock::try_lock(&self.file)
    }
}
