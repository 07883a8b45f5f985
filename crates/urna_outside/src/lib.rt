//! The outside of the ballot machine: two flash devices, a display and a cabinet of files. The layers above are
//! generic over the traits `Machine` and `Cabinet` and know nothing of what stands behind them. What a machine
//! tells, what an operation does to a flash and what a power cut may leave of it stand in `specs/Flash.antt`,
//! `specs/Stop.antt` and `specs/Told.antt`; what a cabinet tells stands in `specs/Cabinet.antt`. Words for what a call
//! does on one device or both are in `specs/Confined.antt` and `specs/Stage.antt`, for where it fails in
//! `specs/Faults.antt`.
//!
//! `files` has those of a real run, `FileMachine` and `FolderCabinet`; those in memory are the crate `memory_outside`.
//! The counts that both need stand here, and `overwrite`, the code of a definition of `specs/Flash.antt`, for the crates above.
#![tactic(auto)]

mod bytes;
mod cabinet;
mod device;
mod fault_counts;
mod files;
mod machine;
mod show;
mod take_counts;

pub use bytes::overwrite;
pub use cabinet::{Cabinet, CabinetError};
pub use device::{Dev, Failed, Port};
pub use fault_counts::FaultCounts;
pub use files::{FileLock, FileMachine, FolderCabinet};
pub use machine::Machine;
pub use show::{lines_show_their_text, show_line};
pub use take_counts::TakeCounts;
