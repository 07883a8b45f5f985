//! What a recorder's devices held at the start, and the trail and the display since then, in room that is reserved
//! beforehand.
ghost use Rattle.std.specs.Prelude.{◌≡◌, ◌+◌, ◌^◌, ◌≤◌, ◌<◌, ◌∷◌, ◌++◌, [], ◌↔◌, length, vec_len, vec_capacity, All, IfOk, IsTrue};
ghost use Rattle.urna_outside.specs.Flash.{Put, Show, Sync, flash_of};
ghost use Rattle.memory_outside.specs.Kept.{end_of, put_length, put_total, shown_total};
ghost use Rattle.memory_outside.specs.Room.{HasRoom, room_after, torn_length};
ghost use Rattle.urna_outside.specs.Started.{clean_flashes};

use std::alloc::{AllocError, Global};
use urna_outside::Dev;

/// An operation of a trail. The bytes of puts stand in one row and those of shows in another, in order.
#[derive(Clone, Copy, Debug, PartialEq, Eq)]
pub(crate) enum Operation {
    Put { dev: Dev, at: u32, len: u32 },
    Sync(Dev),
    Show { len: u32 },
}

impl Operation {
    /// How many bytes it put.
    pub(crate) fn put_length(self) -> usize
        ensures { result ≡ put_length self }
    {
        match self {
            Operation::Put { len, .. } => len as usize,
            Operation::Sync(_) | Operation::Show { .. } => 0,
        }
    }
}

#[derive(Drop)]
pub(crate) struct Tape {
    internal: Vec<u8>,
    external: Vec<u8>,
    pub(crate) trail: Vec<Operation>,
    pub(crate) puts: Vec<u8>,
    shown: Vec<u8>,
    ops_left: u32,
    bytes_left: u32,
    ghost bounded: { length internal.items < 2 ^ 32 },
    ghost same_size: { length external.items ≡ length internal.items },
    ghost counted: { vec_len trail + ops_left < 2 ^ 32 },
    ghost ops_reserved: { vec_len trail + ops_left ≤ vec_capacity trail },
    ghost puts_reserved: { vec_len puts + bytes_left ≤ vec_capacity puts },
    ghost shown_reserved: { vec_len shown + bytes_left ≤ vec_capacity shown },
    ghost puts_whole: { put_total trail.items ≡ length puts.items },
    ghost shown_whole: { shown_total trail.items ≡ length shown.items },
    ghost fits: { All (λ op. end_of op ≤ length internal.items) trail.items },
}

impl Tape {
    ghost use Rattle.memory_outside.specs.Tape.{taped_ops, room_on, size_on, start_on};

    /// A tape of devices that hold these bytes, with room for that many operations, whose bytes are at most so many
    /// together.
    pub(crate) fn new(
        alloc: Global,
        internal: Vec<u8>,
        external: Vec<u8>,
        ops: u32,
        bytes: u32,
    ) -> Result<Tape, AllocError>
        requires bounded { length internal.items < 2 ^ 32 }
        requires same_size { length external.items ≡ length internal.items }
        ensures start { IfOk result (λ tape. start_on tape ≡ clean_flashes internal.items external.items) }
        ensures ops { IfOk result (λ tape. taped_ops tape ≡ []) }
        ensures shown { IfOk result (λ tape. tape.shown.items ≡ []) }
        ensures room { IfOk result (λ tape. room_on tape ≡ record { ops = ops; bytes = bytes }) }
    {
        Ok(Tape {
            internal,
            external,
            trail: Vec::with_capacity(alloc, ops as usize)?,
            puts: Vec::with_capacity(alloc, bytes as usize)?,
            shown: Vec::with_capacity(alloc, bytes as usize)?,
            ops_left: ops,
            bytes_left: bytes,
        })
    }

    /// What a device held at the start.
    pub(crate) fn start(&self, dev: Dev) -> &[u8]
        ensures { result.now ≡ (flash_of dev (start_on self.now)).content }
    {
        match dev {
            Dev::Internal => &self.internal,
            Dev::External => &self.external,
        }
    }

    pub(crate) fn shown(&self) -> &[u8]
        ensures { result.now ≡ self.now.shown.items }
    {
        &self.shown
    }

    /// How many operations it has.
    pub(crate) fn len(&self) -> u32
        ensures { result ≡ length (taped_ops self.now) }
    {
        self.trail.len() as u32
    }

    /// Whether one more operation with so many bytes has room.
    pub(crate) fn has_room(&self, bytes: usize) -> bool
        ensures { IsTrue result ↔ HasRoom (room_on self.now) bytes }
    {
        0 < self.ops_left && bytes <= self.bytes_left as usize
    }

    /// How many of so many bytes a call that fails still puts or shows.
    pub(crate) fn torn_length(&self, bytes: usize) -> usize
        ensures { result ≡ torn_length (room_on self.now) bytes }
    {
        if self.ops_left == 0 {
            return 0;
        }
        (bytes / 2).min(self.bytes_left as usize)
    }

    /// Keeps a put of these bytes, for which there is room.
    pub(crate) fn keep_put(&mut self, dev: Dev, at: u32, bytes: &[u8])
        requires within { at + length bytes.now ≤ size_on self.old }
        requires room { HasRoom (room_on self.old) (length bytes.now) }
        ensures start { start_on self.new ≡ start_on self.old }
        ensures ops { taped_ops self.new ≡ taped_ops self.old ++ Put dev at bytes.now ∷ [] }
        ensures shown { self.new.shown.items ≡ self.old.shown.items }
        ensures room { room_on self.new ≡ room_after (Put dev at bytes.now ∷ []) (room_on self.old) }
    {
        let bytes_left = self.bytes_left;
        let len = bytes.len() as u32;
        self.puts.extend_from_slice(bytes).unwrap();
        self.trail.push(Operation::Put { dev, at, len }).unwrap();
        self.ops_left -= 1;
        self.bytes_left = bytes_left - len;
    }

    /// Keeps a sync, for which there is room.
    pub(crate) fn keep_sync(&mut self, dev: Dev)
        requires { HasRoom (room_on self.old) 0 }
        ensures start { start_on self.new ≡ start_on self.old }
        ensures ops { taped_ops self.new ≡ taped_ops self.old ++ Sync dev ∷ [] }
        ensures shown { self.new.shown.items ≡ self.old.shown.items }
        ensures room { room_on self.new ≡ room_after (Sync dev ∷ []) (room_on self.old) }
    {
        self.trail.push(Operation::Sync(dev)).unwrap();
        self.ops_left -= 1;
    }

    /// Keeps a show of these bytes, for which there is room.
    pub(crate) fn keep_show(&mut self, bytes: &[u8])
        requires { HasRoom (room_on self.old) (length bytes.now) }
        ensures start { start_on self.new ≡ start_on self.old }
        ensures ops { taped_ops self.new ≡ taped_ops self.old ++ Show bytes.now ∷ [] }
        ensures shown { self.new.shown.items ≡ self.old.shown.items ++ bytes.now }
        ensures room { room_on self.new ≡ room_after (Show bytes.now ∷ []) (room_on self.old) }
    {
        let bytes_left = self.bytes_left;
        let len = bytes.len() as u32;
        self.shown.extend_from_slice(bytes).unwrap();
        self.trail.push(Operation::Show { len }).unwrap();
        self.ops_left -= 1;
        self.bytes_left = bytes_left - len;
    }
}
