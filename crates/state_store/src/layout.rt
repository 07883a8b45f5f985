//! Where the parts of a device stand (docs/FORMATS.md, "Flash layout").

use gate_slot::{FRONT_SIZE, HEADER_SIZE};
use image_codec::{BODY_SIZE, PHASE_OFFSET};

/// The bytes of a device: those of its header and of two slots.
pub const DEVICE_SIZE: u32 = 132_608;

/// Where the gate of slot 0 stands, and how far behind it that of slot 1.
pub(crate) const FIRST_GATE: u32 = HEADER_SIZE as u32;

pub(crate) const SLOT_SIZE: u32 = (FRONT_SIZE + BODY_SIZE) as u32;

/// How far behind a gate the phase byte of its slot's body stands.
pub(crate) const PHASE: u32 = (FRONT_SIZE + PHASE_OFFSET) as u32;
