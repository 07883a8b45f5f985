//! The tests of the seats: what the law makes of forty contests and of some majority offices, each worked out from the articles, and which
//! certificates it lets pass. They need public calls of `seat_remainders` and `seat_certificate` alone, and stand in a crate of their own
//! because a crate with tests is proved twice, with them and without them.
//!
//! `rows` and `certificate_rows` have the tables, and `contests`, `majorities` and `certificates` read their rows and tell what comes of
//! them. `owed` is no test itself: it has what a caller of `distribute` owes, by which a row is seen to be a contest that the law is applied
//! to.
#![tactic(auto)]

#[cfg(test)]
mod certificate_rows;
#[cfg(test)]
mod certificates;
#[cfg(test)]
mod contests;
#[cfg(test)]
mod majorities;
pub mod owed;
#[cfg(test)]
mod rows;
