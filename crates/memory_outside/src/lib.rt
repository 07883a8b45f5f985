//! The outside in memory: machines and cabinets that serve the rehearsal and tests. No real election runs them.
//!
//! `Recorder` and `Shelf` tell everything, and fail where they are told to or find no room; a `Recorder` also gives the
//! image of a device at any stop. `Steady` never fails. `WatchedShelf` is a `Shelf` that notes what is put.
#![tactic(auto)]

mod call_counts;
mod chip;
mod chips;
mod item;
mod items;
mod recorder;
mod replay;
mod shelf;
mod steady;
mod tape;
mod tear;
mod watched;

pub use recorder::Recorder;
pub use shelf::Shelf;
pub use steady::Steady;
pub use tear::Tear;
pub use watched::WatchedShelf;
