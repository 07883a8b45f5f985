//! A command over a machine and a cabinet in memory, and what it shows.
use case_parts::{Failing, Flashes, Halt, Paper, cabinet_of, head, machine};
use ledger_commands::urna_ledger;
use memory_outside::{Recorder, WatchedShelf};
use state_store::DEVICE_SIZE;
use std::alloc::Global;
use std::str;
use urna_commands::urna;

/// The file that the keys of a session are.
const KEYS: &str = "k";

/// The program that a command is of. Each has flashes of another size.
#[derive(Clone, Copy)]
pub(crate) enum Program {
    Urna,
    Ledger,
}

impl Program {
    /// The bytes of a device.
    pub(crate) fn device_size(self) -> u32 {
        match self {
            Program::Urna => DEVICE_SIZE,
            Program::Ledger => intake_ledger::DEVICE_SIZE,
        }
    }
}

/// A command: the program and its words, and the keys of a session, which are the file `KEYS`.
#[derive(Drop)]
pub(crate) struct Call {
    pub program: Program,
    pub words: String,
    pub keys: Option<String>,
}

/// A command that has ended: its number, its machine, the files that it put, and whether another file isn't as it was given.
#[derive(Drop)]
pub(crate) struct Ran {
    pub code: u8,
    pub machine: Recorder,
    pub made: Vec<Paper>,
    pub spoiled: bool,
}

fn words_of(alloc: Global, line: &str) -> Result<Vec<String>, Halt> {
    let mut words = Vec::new(alloc);
    if !line.is_empty() {
        for word in line.split(' ') {
            words.push(String::from_str(alloc, word)?)?;
        }
    }
    Ok(words)
}

/// A command of these words, or of those behind `livro`, which are one of the ledger.
pub(crate) fn call_of(alloc: Global, text: &str) -> Result<Call, Halt> {
    let (program, words) = match head(text) {
        ("livro", words) => (Program::Ledger, words),
        _ => (Program::Urna, text),
    };
    Ok(Call {
        program,
        words: String::from_str(alloc, words)?,
        keys: None,
    })
}

/// The number with which a program ends, and the machine that it leaves.
fn answer(
    alloc: Global,
    program: Program,
    words: &[String],
    flashes: &Flashes,
    failing: &Failing,
    cabinet: &mut WatchedShelf,
) -> Result<(u8, Recorder), Halt> {
    match program {
        Program::Urna => {
            let mut machine = machine(alloc, flashes, failing, DEVICE_SIZE)?;
            let code = urna(alloc, words, &mut machine, cabinet).code();
            Ok((code, machine))
        }
        Program::Ledger => {
            let mut machine = machine(alloc, flashes, failing, intake_ledger::DEVICE_SIZE)?;
            let code = urna_ledger(alloc, words, &mut machine, cabinet).code();
            Ok((code, machine))
        }
    }
}

/// The files that were put, in their order.
fn made_of(alloc: Global, cabinet: &WatchedShelf) -> Result<Vec<Paper>, Halt> {
    let mut made = Vec::new(alloc);
    for name in &cabinet.puts {
        if let Some(bytes) = cabinet.shelf.get(name) {
            made.push(Paper {
                name: name.clone()?,
                bytes: bytes.to_vec(alloc)?,
            })?;
        }
    }
    Ok(made)
}

/// Whether a file that was given isn't as it was, but for those that the command has put, and for the keys of a session, which are its own.
fn is_spoiled(cabinet: &WatchedShelf, papers: &[Paper], is_session: bool) -> bool {
    papers.iter().any(|paper| {
        let is_other = is_session && paper.name.as_str() == KEYS
            || cabinet.puts.iter().any(|name| *name == paper.name);
        !is_other && cabinet.shelf.get(&paper.name) != Some(paper.bytes.as_slice())
    })
}

/// How a command over these flashes and this cabinet ends, which has these files and the keys of a session.
fn run_in(
    alloc: Global,
    papers: &[Paper],
    failing: &Failing,
    call: &Call,
    flashes: &Flashes,
    cabinet: &mut WatchedShelf,
) -> Result<Ran, Halt> {
    let words = words_of(alloc, &call.words)?;
    let (code, machine) = answer(alloc, call.program, &words, flashes, failing, cabinet)?;
    Ok(Ran {
        code,
        machine,
        made: made_of(alloc, cabinet)?,
        spoiled: is_spoiled(cabinet, papers, call.keys.is_some()),
    })
}

/// The command over these files and flashes, where these calls fail.
pub(crate) fn run(
    alloc: Global,
    papers: &[Paper],
    failing: &Failing,
    call: &Call,
    flashes: &Flashes,
) -> Result<Ran, Halt> {
    let mut cabinet = cabinet_of(alloc, papers, &failing.cabinet)?;
    if let Some(keys) = &call.keys {
        cabinet.shelf.place(KEYS, keys.as_bytes())?;
    }
    let ran = run_in(alloc, papers, failing, call, flashes, &mut cabinet)?;
    if cabinet.lost {
        return Err(Halt::Memory);
    }
    Ok(ran)
}

/// A session of the section with these keys.
pub(crate) fn session_of(alloc: Global, keys: String) -> Result<Call, Halt> {
    Ok(Call {
        program: Program::Urna,
        words: String::from_str(alloc, "vota t r k o")?,
        keys: Some(keys),
    })
}

/// What a machine has shown.
pub(crate) fn shown(m: &Recorder) -> Result<&str, Halt> {
    match str::from_utf8(m.shown()) {
        Ok(text) => Ok(text),
        Err(_) => Err(Halt::Script),
    }
}

/// How the lines that come of a line of a script begin.
const INDENT: &str = "    ";

/// Prints a text, each of its lines four places in.
pub(crate) fn say(out: &mut String, text: &str) -> Result<(), Halt> {
    for line in text.lines() {
        out.push_str(INDENT)?;
        out.push_str(line)?;
        out.push_str("\n")?;
    }
    Ok(())
}

/// Prints a text of whole lines. Where the last one has no line feed, `…` stands behind it.
pub(crate) fn say_whole(alloc: Global, text: &str, out: &mut String) -> Result<(), Halt> {
    if text.is_empty() || text.ends_with("\n") {
        return say(out, text);
    }
    say(out, &format!(in alloc; "{text}…")?)
}

/// Puts what a command has done to files behind a text, each behind a word: those that it has put, and whether it has changed another one.
fn put_files(text: &mut String, before: &str, ran: &Ran, after: &str) -> Result<(), Halt> {
    for paper in &ran.made {
        text.push_str(before)?;
        text.push_str("+ ")?;
        text.push_str(&paper.name)?;
        text.push_str(after)?;
    }
    if ran.spoiled {
        text.push_str(before)?;
        text.push_str("! a file that was given")?;
        text.push_str(after)?;
    }
    Ok(())
}

/// Puts what a command has done to files behind a text, in one line.
pub(crate) fn push_files(text: &mut String, ran: &Ran) -> Result<(), Halt> {
    put_files(text, ", ", ran, "")
}

/// Prints what a command has shown behind what it had shown before, its number where it isn't 0, and what it has done to files. Where it
/// shows other text than before, all of it is printed.
pub(crate) fn say_ran(
    alloc: Global,
    ran: &Ran,
    before: &str,
    out: &mut String,
) -> Result<(), Halt> {
    let text = shown(&ran.machine)?;
    match text.strip_prefix(before) {
        Some(more) => say_whole(alloc, more, out)?,
        None => {
            say(out, "! other text than before")?;
            say_whole(alloc, text, out)?;
        }
    }
    say_end(alloc, ran, out)
}

/// Prints the number of a command where it isn't 0, and what it has done to files.
pub(crate) fn say_end(alloc: Global, ran: &Ran, out: &mut String) -> Result<(), Halt> {
    if ran.code != 0 {
        say(out, &format!(in alloc; "= {}", ran.code)?)?;
    }
    put_files(out, INDENT, ran, "\n")
}
