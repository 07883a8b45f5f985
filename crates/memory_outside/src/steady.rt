ghost use Rattle.std.specs.Prelude.{◌≡◌, IfOk};
ghost use Rattle.urna_outside.specs.Started.{blank_flashes, both_sizes};

use crate::chips::Chips;
use std::alloc::Global;
use urna_base::Memory;
use urna_outside::{Dev, Failed, Machine};

/// A machine in memory that tells its flashes and drops what it is given to show. Its counts of faults are 0 and stay
/// so: no call fails.
#[derive(Drop)]
pub struct Steady {
    chips: Chips,
}

impl Steady {
    ghost use Rattle.memory_outside.specs.Steady.{flashes_told, steady_told};

    /// Two devices of `size` zeros. No call after it takes memory.
    pub fn new(alloc: Global, size: u32) -> Result<Steady, Memory>
        ensures { IfOk result (λ m. steady_told m ≡ flashes_told (both_sizes size) (blank_flashes size)) }
    {
        let internal = vec![in alloc; 0; size as usize]?;
        let external = vec![in alloc; 0; size as usize]?;
        Ok(Steady {
            chips: Chips::new(alloc, internal, external)?,
        })
    }
}

impl Machine for Steady {
    ghost use Rattle.memory_outside.specs.MachineLaws.{steady_bounded, steady_sized};
    ghost use Rattle.memory_outside.specs.Steady.{steady_told};

    ghost told = { steady_told };

    ghost sized = { steady_sized };

    ghost bounded = { steady_bounded };

    fn size(&self, dev: Dev) -> u32 {
        self.chips.len(dev)
    }

    fn read(&mut self, dev: Dev, at: u32, into: &mut [u8]) -> Result<(), Failed> {
        self.chips.read(dev, at, into);
        Ok(())
    }

    fn write(&mut self, dev: Dev, at: u32, bytes: &[u8]) -> Result<(), Failed> {
        self.chips.put(dev, at, bytes);
        Ok(())
    }

    fn sync(&mut self, dev: Dev) -> Result<(), Failed> {
        self.chips.sync(dev);
        Ok(())
    }

    fn show(&mut self, _bytes: &[u8]) -> Result<(), Failed> {
        Ok(())
    }
}
