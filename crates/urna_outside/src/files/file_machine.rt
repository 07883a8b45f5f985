ghost use Rattle.std.specs.Prelude.{◌≡◌, ◌<◌, ◌^◌};
ghost use Rattle.urna_outside.specs.Told.{silent_told};

use crate::fault_counts::FaultCounts;
use crate::files::file_lock::FileLock;
use crate::files::flash_files::FlashFiles;
use crate::{Dev, Failed, Machine, Port};
use std::io;
use std::io::Write;
use std::rt::Files;

/// The machine of a real run: two flashes that are the files `internal.flash` and `external.flash` of the working
/// folder, and standard output as the display. It tells nothing but its sizes and its counts of faults. What files and
/// terminal do is trusted.
///
/// A file is opened and locked at the first read, write or sync of its device, and made of zeros where nothing has its
/// name. A file that can't be opened, locked or made, or that has another length than the device, is a fault of the
/// device at each call.
#[derive(Drop)]
pub struct FileMachine<'a, R: Files> {
    rt: &'a R,
    size: u32,
    files: FlashFiles<R::File>,
    faults: FaultCounts,
    ghost bounded: { size < 2 ^ 32 },
}

impl<'a, R: Files + Print> FileMachine<'a, R>
where
    R::File: FileLock,
{
    ghost use Rattle.urna_outside.specs.FaultCounts.{no_faults};
    ghost use Rattle.urna_outside.specs.Started.{both_sizes};
    ghost use Rattle.urna_outside.specs.FileMachine.{file_told};

    /// A machine over devices of `size` bytes. It does nothing to any file.
    pub fn new(rt: &'a R, size: u32) -> FileMachine<'a, R>
        ensures { file_told result ≡
            silent_told (both_sizes size) no_faults }
    {
        FileMachine {
            rt,
            size,
            files: FlashFiles::new(),
            faults: FaultCounts::new(),
        }
    }
}

/// All bytes go out before it answers Ok.
fn write_out<R: Print>(rt: &R, bytes: &[u8]) -> io::Result<()> {
    let mut out = io::writer(rt);
    out.write_all(bytes)?;
    out.flush()
}

impl<'a, R: Files + Print> Machine for FileMachine<'a, R>
where
    R::File: FileLock,
{
    ghost use Rattle.urna_outside.specs.FileMachine.{file_told};
    ghost use Rattle.urna_outside.specs.MachineLaws.{none_sized, file_bounded};

    ghost told = { λ m. file_told m };

    ghost sized = { λ m. none_sized _ };

    ghost bounded = { λ m dev. file_bounded m dev };

    fn size(&self, _dev: Dev) -> u32 {
        self.size
    }

    fn read(&mut self, dev: Dev, at: u32, into: &mut [u8]) -> Result<(), Failed> {
        let outcome = self.files.read(self.rt, dev, self.size, at, into);
        self.faults.count(Port::from(dev), outcome)
    }

    fn write(&mut self, dev: Dev, at: u32, bytes: &[u8]) -> Result<(), Failed> {
        let outcome = self.files.write(self.rt, dev, self.size, at, bytes);
        self.faults.count(Port::from(dev), outcome)
    }

    fn sync(&mut self, dev: Dev) -> Result<(), Failed> {
        let outcome = self.files.sync(self.rt, dev, self.size);
        self.faults.count(Port::from(dev), outcome)
    }

    fn show(&mut self, bytes: &[u8]) -> Result<(), Failed> {
        let outcome = write_out(self.rt, bytes);
        self.faults.count(Port::Display, outcome)
    }
}
