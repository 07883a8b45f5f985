//! The state of a poll, kept on two flashes.
//!
//! `Store::format` loads both flashes with a poll before it begins, `Store::recover` finds the poll that they hold after
//! any power cut, and `Store::commit` brings both to a state of greater rank. `specs/Held.antt` says what flashes hold,
//! `specs/Rest.antt` when they are at rest or in use, `specs/Calls.antt` what the calls do, also where the power goes,
//! `specs/Order.antt` in which order. What a call needs besides that works on one device stands beside them: `named_section`,
//! `Ranks`, `is_in_use`, and `Room`, which is all the memory.
#![tactic(auto)]

mod find;
mod frame;
mod in_use;
pub mod laws;
mod layout;
mod load;
mod ranks;
mod room;
mod store;
mod version;

pub use frame::named_section;
pub use in_use::is_in_use;
pub use layout::DEVICE_SIZE;
pub use load::header;
pub use ranks::Ranks;
pub use room::Room;
pub use store::{LoadError, Store, StoreError};
