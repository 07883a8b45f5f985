//! The station: the clerk's and the voter's terminals over the state of one poll.
//!
//! `Station::press` takes one event and `Station::run` a whole script. The layer above uses that they are the run of
//! `specs/Run.antt` (docs/RULES.md, "The run"), whatever the interleaving of both terminals: what they show is the text of the
//! run, line by line, and the state is where the run leads. `specs/Stands.antt` says what a station stands for between two
//! presses. `laws` are the laws of runs.
//!
//! The session changes its state in memory and tells what is to be done (`session`); one loop does it on the machine, over the store
//! that keeps the state on both flashes (`perform`).
#![tactic(auto)]

pub mod laws;
mod line;
mod panel;
mod perform;
mod session;
mod station;
mod visit;

pub use laws::{
    event_commits, fims_and_ballots, last_screens, one_run, one_vote_each, run_commits, run_costs,
    run_grows, stands_for,
};
pub use station::{StartError, Station};
