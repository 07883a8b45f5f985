//! The state of a poll: its phase, who came, and the record of the votes; and the body of a slot, which is how a state is
//! kept.
//!
//! The layer above makes a state by `State::ready` and takes it on by `begin`, `ballot` and `seal`, none of which takes
//! memory. A contract sees the record `State` of `specs/State.antt`, whose steps these calls are; `specs/Valid.antt` says
//! what is so of every state, and `laws` that ballots may come in any order.
//!
//! `encode_into` writes a state, `rank_of`, `State::load` and `decode` read one. There are two versions of a body, and
//! `specs/Encoding.antt` says how a state is written in each, and `specs/Layout.antt` where each field stands. The second one is
//! written, and the reading calls accept exactly either; `laws` say that no two states have a common encoding.
#![tactic(auto)]

mod codec;
pub mod laws;
mod state;

pub use codec::{BODY_SIZE, PHASE_OFFSET, encode_into, rank_of};
pub use state::{State, decode};
