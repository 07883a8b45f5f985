//! What the player of scripts works with: the words of a line, the files that a command is given, their changes, what both flashes hold, what
//! a power cut leaves of them, and which calls fail (docs/FORMATS.md, "Scripts of cases"). A function answers `Halt::Script` where a line is
//! none of a script, or names what isn't there or doesn't fit, and `Halt::Memory` where memory was refused.
#![tactic(auto)]

mod cuts;
mod edits;
mod failing;
mod flashes;
mod halt;
mod kept;
mod papers;
mod words;

pub use cuts::{Fill, WAYS, fill_of, power_cut, power_cut_inside};
pub use edits::{edited, hashed};
pub use failing::Failing;
pub use flashes::{
    Flashes, are_same, blank, copied, is_left, left, machine, no_flashes, set, shut_device,
};
pub use halt::Halt;
pub use kept::{Kept, kept_as};
pub use papers::{Paper, bytes_of, cabinet_of, lines_of, place, remove};
pub use words::{device, head, hex_bytes, number, numbers};
