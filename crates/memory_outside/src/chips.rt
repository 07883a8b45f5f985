//! The two flash devices of a machine in memory.
ghost use Rattle.std.specs.Prelude.{◌≡◌, ◌+◌, ◌^◌, ◌<◌, ◌≤◌, length, IfOk};
ghost use Rattle.urna_outside.specs.Flash.{Put, Sync, after_one, flash_of, part};
ghost use Rattle.urna_outside.specs.Started.{clean_flashes};
ghost use Rattle.urna_outside.specs.Told.{size_of};

use crate::chip::Chip;
use std::alloc::{AllocError, Global};
use urna_outside::Dev;

#[derive(Drop)]
pub(crate) struct Chips {
    internal: Chip,
    external: Chip,
}

impl Chips {
    ghost use Rattle.memory_outside.specs.Chip.{flash};
    ghost use Rattle.memory_outside.specs.Chips.{flashes_in, sizes_in};

    /// Two devices of these bytes, nothing dirty.
    pub(crate) fn new(
        alloc: Global,
        internal: Vec<u8>,
        external: Vec<u8>,
    ) -> Result<Chips, AllocError>
        requires internal { length internal.items < 2 ^ 32 }
        requires external { length external.items < 2 ^ 32 }
        ensures { IfOk result (λ chips. flashes_in chips ≡ clean_flashes internal.items external.items) }
    {
        Ok(Chips {
            internal: Chip::new(alloc, internal)?,
            external: Chip::new(alloc, external)?,
        })
    }

    pub(crate) fn len(&self, dev: Dev) -> u32
        ensures { result ≡ size_of dev (sizes_in self.now) }
    {
        self.chip(dev).len()
    }

    pub(crate) fn content(&self, dev: Dev) -> &[u8]
        ensures { result.now ≡ (flash_of dev (flashes_in self.now)).content }
    {
        self.chip(dev).content()
    }

    fn chip(&self, dev: Dev) -> &Chip
        ensures { flash result.now ≡ flash_of dev (flashes_in self.now) }
    {
        match dev {
            Dev::Internal => &self.internal,
            Dev::External => &self.external,
        }
    }

    pub(crate) fn read(&self, dev: Dev, at: u32, into: &mut [u8])
        requires { at + length into.old ≤ size_of dev (sizes_in self.now) }
        ensures { into.new ≡ part (flash_of dev (flashes_in self.now)).content at (length into.old) }
    {
        self.chip(dev).read(at, into);
    }

    pub(crate) fn put(&mut self, dev: Dev, at: u32, bytes: &[u8])
        requires { at + length bytes.now ≤ size_of dev (sizes_in self.old) }
        ensures { flashes_in self.new ≡ after_one (Put dev at bytes.now) (flashes_in self.old) }
    {
        match dev {
            Dev::Internal => self.internal.put(at, bytes),
            Dev::External => self.external.put(at, bytes),
        }
    }

    pub(crate) fn sync(&mut self, dev: Dev)
        ensures { flashes_in self.new ≡ after_one (Sync dev) (flashes_in self.old) }
    {
        match dev {
            Dev::Internal => self.internal.sync(),
            Dev::External => self.external.sync(),
        }
    }
}
