//! A document that is cut at each length, and changed in each bit.
use crate::calls::{Ran, push_files, run, say, shown};
use crate::runs::{Runs, Ways};
use crate::stage::{Last, Stage, last_of};
use crate::stops::{last_line, told_by};
use case_parts::{Failing, Halt, bytes_of, is_left, place};
use std::alloc::Global;

/// Puts the line that tells a fault behind a text, but for a number at its end.
fn push_fault(told: &mut String, line: &str) -> Result<(), Halt> {
    let is_digit = |byte: u8| byte.is_ascii_digit();
    let fault = match line.rsplit_once(" ") {
        Some((words, number)) if number.bytes().all(is_digit) => words,
        _ => line,
    };
    if fault.starts_with("ERRO ") {
        told.push_str(" ")?;
        told.push_str(fault)?;
    }
    Ok(())
}

/// How a command ended: its number, its fault, and whether the flashes are other ones.
fn told_end(alloc: Global, last: &Last, ran: &Ran) -> Result<String, Halt> {
    let mut told = format!(in alloc; "= {}", ran.code)?;
    push_fault(&mut told, last_line(shown(&ran.machine)?))?;
    if !is_left(&ran.machine, &last.given) {
        told.push_str(", other flashes")?;
    }
    push_files(&mut told, ran)?;
    Ok(told)
}

/// Adds a text to others that rise, where it isn't there.
fn add(texts: &mut Vec<String>, text: String) -> Result<(), Halt> {
    if texts.iter().any(|one| *one == text) {
        return Ok(());
    }
    let at = texts.iter().position(|one| *one > text);
    texts.insert(at.unwrap_or(texts.len()), text)?;
    Ok(())
}

/// Runs the last command with other bytes in a document, and adds how it ended.
fn add_end(
    alloc: Global,
    stage: &mut Stage,
    name: &str,
    bytes: Vec<u8>,
    ends: &mut Vec<String>,
) -> Result<(), Halt> {
    place(alloc, &mut stage.papers, name, bytes)?;
    let last = last_of(&stage.last)?;
    let failing = Failing::none(alloc);
    let ran = run(alloc, &stage.papers, &failing, &last.call, &last.given)?;
    add(ends, told_end(alloc, last, &ran)?)
}

const BITS: [u8; 8] = [1, 2, 4, 8, 16, 32, 64, 128];

/// A document with one byte changed by a bit.
fn turned(alloc: Global, whole: &[u8], at: usize, bit: u8) -> Result<Vec<u8>, Halt> {
    let mut bytes = whole.to_vec(alloc)?;
    if let Some(byte) = bytes.get_mut(at) {
        *byte ^= bit;
    }
    Ok(bytes)
}

/// A document that is cut at a length.
fn front(alloc: Global, whole: &[u8], at: usize) -> Result<Vec<u8>, Halt> {
    Ok(whole.get(..at).unwrap_or(&[]).to_vec(alloc)?)
}

/// Adds how the last command ends where a document is cut at each length, and changed in each bit.
fn add_ends(
    alloc: Global,
    stage: &mut Stage,
    name: &str,
    whole: &[u8],
    ends: &mut Vec<String>,
) -> Result<(), Halt> {
    for at in 0..whole.len() {
        add_end(alloc, stage, name, front(alloc, whole, at)?, ends)?;
        for bit in BITS {
            add_end(alloc, stage, name, turned(alloc, whole, at, bit)?, ends)?;
        }
    }
    Ok(())
}

/// Prints each way in which it ends so.
fn say_ends(
    alloc: Global,
    stage: &mut Stage,
    name: &str,
    whole: &[u8],
    out: &mut String,
) -> Result<(), Halt> {
    let mut ends = Vec::new(alloc);
    add_ends(alloc, stage, name, whole, &mut ends)?;
    for end in &ends {
        say(out, end)?;
    }
    Ok(())
}

/// The same of a document among the files, which then is as it was.
pub(crate) fn each_change(
    alloc: Global,
    stage: &mut Stage,
    name: &str,
    out: &mut String,
) -> Result<(), Halt> {
    let whole = bytes_of(&stage.papers, name)?.to_vec(alloc)?;
    say_ends(alloc, stage, name, &whole, out)?;
    place(alloc, &mut stage.papers, name, whole)
}

/// What the last command tells over other bytes of a document.
fn told_over(alloc: Global, stage: &mut Stage, name: &str, bytes: Vec<u8>) -> Result<String, Halt> {
    place(alloc, &mut stage.papers, name, bytes)?;
    let last = last_of(&stage.last)?;
    told_by(alloc, &stage.papers, &last.call, &last.given)
}

/// Tells what it tells where one byte is changed by a bit.
fn tell_turned(
    alloc: Global,
    stage: &mut Stage,
    name: &str,
    bytes: Vec<u8>,
    bit: u8,
    ways: &mut Ways,
) -> Result<(), Halt> {
    let told = told_over(alloc, stage, name, bytes)?;
    ways.add(&format!(in alloc; "{bit}")?, &told)
}

/// Prints what the last command tells where a document is cut at each length.
fn say_cuts(
    alloc: Global,
    stage: &mut Stage,
    name: &str,
    whole: &[u8],
    out: &mut String,
) -> Result<(), Halt> {
    let mut runs = Runs::new(alloc);
    for at in 0..whole.len() {
        let told = told_over(alloc, stage, name, front(alloc, whole, at)?)?;
        runs.add(alloc, &told, out)?;
    }
    runs.say(alloc, out)
}

/// Adds what it tells where one byte of a document is changed by each bit.
fn add_turns(
    alloc: Global,
    stage: &mut Stage,
    name: &str,
    whole: &[u8],
    at: usize,
    ways: &mut Ways,
) -> Result<(), Halt> {
    ways.clear();
    for bit in BITS {
        tell_turned(
            alloc,
            stage,
            name,
            turned(alloc, whole, at, bit)?,
            bit,
            ways,
        )?;
    }
    Ok(())
}

/// Prints what it tells where each byte is changed so.
fn say_turns(
    alloc: Global,
    stage: &mut Stage,
    name: &str,
    whole: &[u8],
    out: &mut String,
) -> Result<(), Halt> {
    let mut ways = Ways::new(alloc);
    let mut runs = Runs::new(alloc);
    for at in 0..whole.len() {
        add_turns(alloc, stage, name, whole, at, &mut ways)?;
        runs.add(alloc, ways.text(), out)?;
    }
    runs.say(alloc, out)
}

/// Prints both of a document among the files, which then is as it was.
pub(crate) fn each_answer(
    alloc: Global,
    stage: &mut Stage,
    name: &str,
    out: &mut String,
) -> Result<(), Halt> {
    let whole = bytes_of(&stage.papers, name)?.to_vec(alloc)?;
    say_cuts(alloc, stage, name, &whole, out)?;
    say_turns(alloc, stage, name, &whole, out)?;
    place(alloc, &mut stage.papers, name, whole)
}
