//! Plays scripts: commands of `urna` and of `urna_ledger` over machines and cabinets in memory, each over what the last one left.
//!
//! The program's words name the scripts, which lie in the working folder with the documents that they give to commands. Each line of
//! a script is printed as it stands, and under it, four places in, what came of it: so what is printed is what must come, line by line
//! (`stdout`). docs/FORMATS.md, "Scripts of cases", has the lines.
//!
//! The status is 0 where each line was one of a script, and 1 where one was not, a file was not there, or memory was wanting; why is
//! then printed behind what the lines have printed.
#![tactic(auto)]

mod calls;
mod chains;
mod changes;
mod looks;
mod ranks;
mod runs;
mod stage;
mod steps;
mod stops;

use case_parts::Halt;
use stage::Stage;
use std::alloc::Global;
use std::process::ExitCode;
use std::{env, io, str};
use steps::step;
use urna_outside::{Cabinet, FolderCabinet};

/// The longest script that is read.
const LONGEST_SCRIPT: u32 = 1_048_576;

/// Puts what the lines of a script print behind a text.
fn play<C: Cabinet>(
    alloc: Global,
    folder: &mut C,
    text: &str,
    out: &mut String,
) -> Result<(), Halt> {
    let mut stage = Stage::new(alloc)?;
    for line in text.lines() {
        out.push_str(line)?;
        out.push_str("\n")?;
        step(alloc, folder, &mut stage, line, out)?;
    }
    Ok(())
}

/// The same of a script of the folder.
fn play_file<C: Cabinet>(
    alloc: Global,
    folder: &mut C,
    name: &str,
    out: &mut String,
) -> Result<(), Halt> {
    let bytes = match folder.take(alloc, name, LONGEST_SCRIPT) {
        Ok(bytes) => bytes,
        Err(_) => return Err(Halt::Script),
    };
    match str::from_utf8(&bytes) {
        Ok(text) => play(alloc, folder, text, out),
        Err(_) => Err(Halt::Script),
    }
}

/// Plays a script, and prints why it halted, if it did, behind what its lines have printed. Answers whether each was one.
fn is_played(rt: &HostRuntime, name: &str) -> io::Result<bool> {
    let mut folder = FolderCabinet::new(rt);
    let mut out = String::new(rt.alloc());
    let halt = play_file(rt.alloc(), &mut folder, name, &mut out).err();
    print!(rt; "{out}")?;
    match halt {
        None => Ok(true),
        Some(Halt::Memory) => {
            println!(rt; "want of memory: {name}")?;
            Ok(false)
        }
        Some(Halt::Script) => {
            println!(rt; "no script, or no line of one: {name}")?;
            Ok(false)
        }
    }
}

/// Plays each script, up to one that halts. Answers whether none did.
fn play_all(rt: &HostRuntime) -> io::Result<bool> {
    for name in env::args(rt)?.skip(1) {
        if !is_played(rt, name.as_str())? {
            return Ok(false);
        }
    }
    Ok(true)
}

fn main(rt: HostRuntime) -> ExitCode {
    match play_all(&rt) {
        Ok(true) => ExitCode::from(0),
        _ => ExitCode::from(1),
    }
}
