//! The memory of a store.
ghost use Rattle.std.specs.Prelude.{◌≡◌, ◌≤◌, IfOk, vec_capacity};
ghost use Rattle.election_tables.specs.Limits.{most_voters};
ghost use Rattle.image_codec.specs.Valid.{ready_state};
ghost use Rattle.state_store.specs.Store.{IsBuffer};

use election_tables::Tables;
use image_codec::{BODY_SIZE, State};
use std::alloc::Global;
use twin_image::Twin;
use urna_base::{Memory, zeros};

/// All the memory that a store and its state take: the buffers of a survey, a state, and where a next body is written.
#[derive(Drop)]
pub struct Room {
    pub twin: Twin<BODY_SIZE>,
    pub state: State,
    pub next: Vec<u8>,
    pub ghost buffer: { IsBuffer next.items (vec_capacity next) },
}

impl Room {
    /// Room for a poll of these tables and so many voters, of whom there are at most 600, and its state before it begins.
    /// `Memory` comes only where an allocation failed.
    pub fn new(alloc: Global, tables: &Tables, voters: u32) -> Result<Room, Memory>
        requires { voters ≤ most_voters }
        ensures { IfOk result (λ room. room.state ≡ ready_state tables.now voters) }
    {
        Ok(Room {
            twin: Twin::new(alloc)?,
            state: State::ready(alloc, tables, voters)?,
            next: zeros(alloc, BODY_SIZE)?,
        })
    }
}
