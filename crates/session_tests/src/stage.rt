//! What a script works on: the files, the flashes, those that were kept, which calls fail, and the last command.
use crate::calls::{Call, Program, Ran};
use case_parts::{Failing, Flashes, Halt, Kept, Paper, blank};
use std::alloc::Global;

/// The last command: what it was, the flashes that it was given, and how it ended.
#[derive(Drop)]
pub(crate) struct Last {
    pub call: Call,
    pub given: Flashes,
    pub ran: Ran,
}

/// All of it.
#[derive(Drop)]
pub(crate) struct Stage {
    pub papers: Vec<Paper>,
    pub failing: Failing,
    pub flashes: Flashes,
    pub kept: Vec<Kept>,
    pub last: Option<Last>,
}

impl Stage {
    /// No files, and flashes of zeros.
    pub(crate) fn new(alloc: Global) -> Result<Stage, Halt> {
        Ok(Stage {
            papers: Vec::new(alloc),
            failing: Failing::none(alloc),
            flashes: blank(alloc, Program::Urna.device_size())?,
            kept: Vec::new(alloc),
            last: None,
        })
    }
}

/// The last command, if there was one.
pub(crate) fn last_of(last: &Option<Last>) -> Result<&Last, Halt> {
    match last {
        Some(last) => Ok(last),
        None => Err(Halt::Script),
    }
}
