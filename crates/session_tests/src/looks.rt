//! The lines of a script that print what is there.
use crate::calls::{say, say_whole};
use crate::chains::each_chain;
use crate::changes::{each_answer, each_change};
use crate::ranks::told_ranks;
use crate::stage::{Stage, last_of};
use crate::stops::{each_call, each_piece, each_rank, each_stop, told_by_all};
use case_parts::{Halt, are_same, bytes_of, device, head, kept_as, number};
use hex::encode_upper;
use std::alloc::Global;
use std::str;
use urna_outside::Dev;

/// Prints the text of a file.
fn say_file(alloc: Global, stage: &Stage, name: &str, out: &mut String) -> Result<(), Halt> {
    let Ok(bytes) = bytes_of(&stage.papers, name) else {
        return say(out, "is not there");
    };
    match str::from_utf8(bytes) {
        Ok(text) => say_whole(alloc, text, out),
        Err(_) => Err(Halt::Script),
    }
}

fn say_same(out: &mut String, same: bool) -> Result<(), Halt> {
    say(out, if same { "the same" } else { "not the same" })
}

/// Prints whether two files have the same bytes. The content of a device stands under its name.
fn say_same_files(stage: &Stage, rest: &str, out: &mut String) -> Result<(), Halt> {
    let (one, other) = head(rest);
    let same = match device(other) {
        Ok(Dev::Internal) => bytes_of(&stage.papers, one)? == stage.flashes.internal.as_slice(),
        Ok(Dev::External) => bytes_of(&stage.papers, one)? == stage.flashes.external.as_slice(),
        Err(_) => bytes_of(&stage.papers, one)? == bytes_of(&stage.papers, other)?,
    };
    say_same(out, same)
}

/// Prints whether both flashes hold what kept ones do.
fn say_like(stage: &Stage, name: &str, out: &mut String) -> Result<(), Halt> {
    say_same(out, are_same(kept_as(&stage.kept, name)?, &stage.flashes))
}

/// Prints bytes of a device as hexadecimal digits.
fn say_bytes(alloc: Global, stage: &Stage, rest: &str, out: &mut String) -> Result<(), Halt> {
    let (dev, rest) = head(rest);
    let (at, count) = head(rest);
    let image = match device(dev)? {
        Dev::Internal => &stage.flashes.internal,
        Dev::External => &stage.flashes.external,
    };
    let (at, count) = (number(at)? as usize, number(count)? as usize);
    match image.get(at..at.saturating_add(count)) {
        Some(bytes) => say(out, &encode_upper(alloc, bytes)?),
        None => Err(Halt::Script),
    }
}

/// Prints how many operations the last command had on the machine.
fn say_operations(alloc: Global, stage: &Stage, out: &mut String) -> Result<(), Halt> {
    let count = last_of(&stage.last)?.ran.machine.trail_len();
    say(out, &format!(in alloc; "{count}")?)
}

/// The lines that look once.
pub(crate) fn look(
    alloc: Global,
    stage: &Stage,
    word: &str,
    rest: &str,
    out: &mut String,
) -> Result<bool, Halt> {
    match word {
        "print" => say_file(alloc, stage, rest, out)?,
        "same" => say_same_files(stage, rest, out)?,
        "like" => say_like(stage, rest, out)?,
        "bytes" => say_bytes(alloc, stage, rest, out)?,
        "operations" if rest.is_empty() => say_operations(alloc, stage, out)?,
        "held" if rest.is_empty() => say(out, &told_by_all(alloc, &stage.papers, &stage.flashes)?)?,
        "slots" if rest.is_empty() => say(out, &told_ranks(alloc, &stage.papers, &stage.flashes)?)?,
        _ => return Ok(false),
    }
    Ok(true)
}

/// The lines that look at the last command in each of many ways.
pub(crate) fn look_at_each(
    alloc: Global,
    stage: &mut Stage,
    word: &str,
    rest: &str,
    out: &mut String,
) -> Result<bool, Halt> {
    match word {
        "stops" => each_stop(alloc, stage, rest, out)?,
        "ranks" => each_rank(alloc, stage, rest, out)?,
        "pieces" => each_piece(alloc, stage, rest, out)?,
        "calls" => each_call(alloc, stage, rest, out)?,
        "changes" => each_change(alloc, stage, rest, out)?,
        "answers" => each_answer(alloc, stage, rest, out)?,
        "chains" => each_chain(alloc, stage, rest, out)?,
        _ => return Ok(false),
    }
    Ok(true)
}
