//! One flash device in memory, with a mark for each dirty byte.
ghost use Rattle.std.specs.Prelude.{◌≡◌, ◌+◌, ◌^◌, ◌<◌, ◌≤◌, false, length, replicate, IfOk};
ghost use Rattle.urna_outside.specs.Flash.{IsImage, clean_flash, part, put, synced};
ghost use Rattle.memory_outside.specs.Marks.{IsCleanBut};
ghost use Rattle.memory_outside.specs.Tear.{torn, with_byte};

use crate::Tear;
use std::alloc::{AllocError, Global};
use urna_outside::overwrite;

#[derive(Drop)]
pub(crate) struct Chip {
    bytes: Vec<u8>,
    dirty: Vec<bool>,
    // No byte before `first` is dirty, and none from `end` on, so a sync clears only the marks between them.
    first: usize,
    end: usize,
    ghost same_length: { length dirty.items ≡ length bytes.items },
    ghost bounded: { length bytes.items < 2 ^ 32 },
    ghost within: { end ≤ length bytes.items },
    ghost others: { IsCleanBut first end dirty.items },
}

/// The bytes, with this one in the place of each that has a mark.
fn with_byte(alloc: Global, byte: u8, bytes: &[u8], marks: &[bool]) -> Result<Vec<u8>, AllocError>
    ensures { IfOk result (λ torn. torn.items ≡ with_byte byte bytes.now marks.now) }
{
    bytes
        .iter()
        .zip(marks.iter())
        .map(|(old, marked)| if *marked { byte } else { *old })
        .collect(alloc)
}

/// Clears all marks. None is set before `first`, and none from `end` on.
fn clear(marks: &mut [bool], first: usize, end: usize)
    requires within { end ≤ length marks.old }
    requires others { IsCleanBut first end marks.old }
    ensures { marks.new ≡ replicate (length marks.old) false }
{
    if first < end {
        marks[first..end].fill(false);
    }
}

impl Chip {
    ghost use Rattle.memory_outside.specs.Chip.{flash};

    /// A device of these bytes, nothing dirty.
    pub(crate) fn new(alloc: Global, bytes: Vec<u8>) -> Result<Chip, AllocError>
        requires { length bytes.items < 2 ^ 32 }
        ensures { IfOk result (λ chip. flash chip ≡ clean_flash bytes.items) }
    {
        let dirty = vec![in alloc; false; bytes.len()]?;
        let first = bytes.len();
        Ok(Chip {
            bytes,
            dirty,
            first,
            end: 0,
        })
    }

    pub(crate) fn len(&self) -> u32
        ensures { result ≡ length (flash self.now).content }
    {
        self.bytes.len() as u32
    }

    pub(crate) fn content(&self) -> &[u8]
        ensures { result.now ≡ (flash self.now).content }
    {
        &self.bytes
    }

    pub(crate) fn read(&self, at: u32, into: &mut [u8])
        requires { at + length into.old ≤ length (flash self.now).content }
        ensures { into.new ≡ part (flash self.now).content at (length into.old) }
    {
        let from = at as usize;
        into.copy_from_slice(&self.bytes[from..from + into.len()]);
    }

    pub(crate) fn put(&mut self, at: u32, bytes: &[u8])
        requires { at + length bytes.now ≤ length (flash self.old).content }
        ensures { flash self.new ≡ put at bytes.now (flash self.old) }
    {
        let from = at as usize;
        let to = from + bytes.len();
        overwrite(&mut self.bytes, from, bytes);
        self.dirty[from..to].fill(true);
        self.first = self.first.min(from);
        self.end = self.end.max(to);
    }

    pub(crate) fn sync(&mut self)
        ensures { flash self.new ≡ synced (flash self.old) }
    {
        clear(&mut self.dirty, self.first, self.end);
        self.first = self.bytes.len();
        self.end = 0;
    }

    /// What a power cut leaves of it.
    pub(crate) fn image(&self, alloc: Global, tear: Tear) -> Result<Vec<u8>, AllocError>
        ensures torn { IfOk result (λ image. image.items ≡ torn tear (flash self.now)) }
        ensures possible { IfOk result (λ image. IsImage (flash self.now) image.items) }
    {
        match tear {
            Tear::AsPut => self.bytes.to_vec(alloc),
            Tear::Byte(byte) => with_byte(alloc, byte, &self.bytes, &self.dirty),
        }
    }
}
