//! The bytes of a state: how it is written into the body of a slot, and read from one (docs/FORMATS.md, "The body").
mod counters;
mod head;
mod layout;
mod numbers;
mod reading;
mod votes;
mod writing;

pub(crate) use head::fill_turnout;
pub use layout::{BODY_SIZE, PHASE_OFFSET};
pub use reading::rank_of;
pub(crate) use reading::{checked, fill_votes};
pub use writing::encode_into;
