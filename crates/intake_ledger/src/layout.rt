//! Where the fields of a ledger's body stand, and the parts of a device. `specs/Layout.antt` and `specs/Kept.antt` have the same.

use gate_slot::{FRONT_SIZE, HEADER_SIZE};

/// The bytes of a body.
pub const BODY_SIZE: usize = 262_144;

/// The version of a body, which is its first byte.
pub(crate) const VERSION: u8 = 1;

/// Where the number of accepted sections begins, in four bytes.
pub(crate) const NUMBER_OFFSET: usize = 4;

/// Where the marks of the sections begin, a bit for each.
pub(crate) const MARKS_OFFSET: usize = 8;

/// Where they end.
pub(crate) const MARKS_END: usize = 258;

/// How many sections they have marks for.
pub(crate) const MARKED_SECTIONS: u32 = 2_000;

/// Where the hashes begin, one for each of these sections.
pub(crate) const HASHES_OFFSET: usize = 512;

/// How many bytes a hash takes.
pub(crate) const HASH_SIZE: usize = 64;

/// Where the sums begin.
pub(crate) const SUMS_OFFSET: usize = 128_512;

/// How many bytes a sum takes.
pub(crate) const SUM_SIZE: usize = 8;

/// The bytes of a device: those of its header and of two slots.
pub const DEVICE_SIZE: u32 = 525_824;

/// Where the gate of slot 0 stands, and how far behind it that of slot 1.
pub(crate) const FIRST_GATE: u32 = HEADER_SIZE as u32;

pub(crate) const SLOT_SIZE: u32 = (FRONT_SIZE + BODY_SIZE) as u32;

/// How far behind a gate the number of its slot's body stands.
pub(crate) const NUMBER: u32 = (FRONT_SIZE + NUMBER_OFFSET) as u32;
