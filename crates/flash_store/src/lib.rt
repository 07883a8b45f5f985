//! States of any kind that are kept on two flashes.
//!
//! `specs/Held.antt` says which state flashes hold, by what their open slots have; `specs/Calls.antt` and `specs/Played.antt` what is done
//! where states are committed and their lines are shown, also where the power goes. The calls here begin what a store does: they sync
//! both devices, and look at the bytes and the frame of one; a header names its device by `device_byte`.
#![tactic(auto)]

mod device;
pub mod laws;
mod look;
mod sync;

pub use device::device_byte;
pub use look::{byte_at, has_frame, stand_at};
pub use sync::sync_both;
