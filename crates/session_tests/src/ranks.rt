//! The ranks of the states in the open slots, which no recovery has looked at.
use case_parts::{Flashes, Halt, Paper, bytes_of};
use election_tables::{MOST_VOTERS, Roll, Tables};
use gate_slot::{FRONT_SIZE, HEADER_SIZE, OPEN};
use image_codec::{BODY_SIZE, rank_of};
use std::alloc::Global;

/// How many bytes a slot of a poll's device has: its gate with what fills up the page, and its body.
const SLOT: usize = FRONT_SIZE + BODY_SIZE;

/// Where the gates of both slots of a poll's device stand.
const GATES: [usize; 2] = [HEADER_SIZE, HEADER_SIZE + SLOT];

/// The rank of the state in the slot of an image whose gate stands there, if the gate is open and the body a state's.
fn rank_at(tables: &Tables, voters: u32, image: &[u8], gate: usize) -> Option<u32> {
    if image.get(gate) != Some(&OPEN) || u64::from(voters) > MOST_VOTERS {
        return None;
    }
    let body = gate.saturating_add(FRONT_SIZE);
    let bytes = image.get(body..body.saturating_add(BODY_SIZE))?;
    rank_of(tables, voters, bytes)
}

/// The ranks in both slots of an image.
fn told_image(alloc: Global, tables: &Tables, voters: u32, image: &[u8]) -> Result<String, Halt> {
    let mut text = String::new(alloc);
    for gate in GATES {
        match rank_at(tables, voters, image, gate) {
            Some(rank) => text.push_str(&format!(in alloc; " {rank}")?)?,
            None => text.push_str(" -")?,
        }
    }
    Ok(text)
}

/// The ranks in the four slots, as the tables `t` and the roll `r` have them.
pub(crate) fn told_ranks(
    alloc: Global,
    papers: &[Paper],
    flashes: &Flashes,
) -> Result<String, Halt> {
    let Ok(tables) = Tables::read(alloc, bytes_of(papers, "t")?) else {
        return Err(Halt::Script);
    };
    let Ok(roll) = Roll::read(alloc, bytes_of(papers, "r")?) else {
        return Err(Halt::Script);
    };
    let internal = told_image(alloc, &tables, roll.len(), &flashes.internal)?;
    let external = told_image(alloc, &tables, roll.len(), &flashes.external)?;
    Ok(format!(in alloc; "internal{internal} external{external}")?)
}
