//! Which calls of the outside fail while a command runs.
use std::alloc::Global;

/// What commands meet: the calls that fail, of the machine and of the cabinet, numbered from 0, and for how many bytes that are put or
/// shown the machine has room.
#[derive(Drop)]
pub struct Failing {
    pub machine: Vec<u32>,
    pub cabinet: Vec<u32>,
    pub room: u32,
}

/// For how many bytes a machine has room where a script doesn't say.
const ROOM: u32 = 1_500_000;

impl Failing {
    /// No call fails, and there is room for 1,500,000 bytes.
    pub fn none(alloc: Global) -> Failing {
        Failing {
            machine: Vec::new(alloc),
            cabinet: Vec::new(alloc),
            room: ROOM,
        }
    }
}
