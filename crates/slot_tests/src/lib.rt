//! The tests of a slot (`gate_slot`) and of the two slots of a device (`twin_image`), over machines in memory. They need public calls
//! only, and stand in a crate of their own because a crate with tests is proved twice, with them and without them.
//!
//! `device` is no test itself: it makes the machine on which the two slots of a device are renewed.
#![tactic(auto)]

pub mod device;
#[cfg(test)]
mod pages;
#[cfg(test)]
mod slot;
#[cfg(test)]
mod twins;
