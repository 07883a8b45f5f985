//! The program `urna`: reads its words, and does their command over the files of the working folder and standard output.
//!
//! The commands, and what is proved of them, stand in the library `urna_commands`; `urna` is its call (docs/FORMATS.md, "Statuses").
#![tactic(auto)]

use command_parts::words;
use state_store::DEVICE_SIZE;
use std::process::ExitCode;
pub use urna_commands::{Doc, Status, contest_of, urna};
use urna_outside::{FileMachine, FolderCabinet};

/// The status where the program's words can't be had, which no command has.
const NO_WORDS: u8 = 40;

/// The command of the program's words, over the files of the working folder and standard output.
fn run_program(rt: &HostRuntime) -> ExitCode {
    let words = match words(rt.alloc(), rt) {
        Ok(words) => words,
        Err(_) => return ExitCode::from(NO_WORDS),
    };
    let mut machine = FileMachine::new(rt, DEVICE_SIZE);
    let mut cabinet = FolderCabinet::new(rt);
    ExitCode::from(urna(rt.alloc(), &words, &mut machine, &mut cabinet).code())
}

/// The program. No test can call it, so all that it does is `run_program`.
fn main(rt: HostRuntime) -> ExitCode {
    run_program(&rt)
}
