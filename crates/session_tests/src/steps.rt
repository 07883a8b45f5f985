//! The lines of a script that set up, and those that are commands.
use crate::calls::{Call, Program, Ran, call_of, run, say_end, say_ran, session_of, shown};
use crate::looks::{look, look_at_each};
use crate::stage::{Last, Stage, last_of};
use case_parts::{
    Failing, Flashes, Halt, Kept, blank, bytes_of, copied, device, edited, fill_of, hashed, head,
    hex_bytes, kept_as, left, lines_of, number, numbers, place, power_cut, remove, set,
    shut_device,
};
use std::alloc::Global;
use urna_outside::{Cabinet, Dev};

/// The longest document that is read.
const LONGEST_DOCUMENT: u32 = 1_048_576;

/// Places a file of the folder under a name.
fn place_file<C: Cabinet>(
    alloc: Global,
    folder: &mut C,
    stage: &mut Stage,
    rest: &str,
) -> Result<(), Halt> {
    let (name, file) = head(rest);
    match folder.take(alloc, file, LONGEST_DOCUMENT) {
        Ok(bytes) => place(alloc, &mut stage.papers, name, bytes),
        Err(_) => Err(Halt::Script),
    }
}

/// Places a file of some lines.
fn place_text(alloc: Global, stage: &mut Stage, rest: &str) -> Result<(), Halt> {
    let (name, text) = head(rest);
    let bytes = lines_of(alloc, text)?;
    place(alloc, &mut stage.papers, name, bytes)
}

/// Places a file of so many zeros.
fn place_long(alloc: Global, stage: &mut Stage, rest: &str) -> Result<(), Halt> {
    let (name, count) = head(rest);
    let bytes = vec![in alloc; b'0'; number(count)? as usize]?;
    place(alloc, &mut stage.papers, name, bytes)
}

/// Changes a file.
fn edit_file(alloc: Global, stage: &mut Stage, rest: &str) -> Result<(), Halt> {
    let (name, changes) = head(rest);
    let bytes = edited(alloc, bytes_of(&stage.papers, name)?, changes)?;
    place(alloc, &mut stage.papers, name, bytes)
}

/// Makes the hashes of a report's file anew.
fn hash_file(alloc: Global, stage: &mut Stage, name: &str) -> Result<(), Halt> {
    let bytes = hashed(alloc, bytes_of(&stage.papers, name)?)?;
    place(alloc, &mut stage.papers, name, bytes)
}

/// The lines that say which files there are.
fn give<C: Cabinet>(
    alloc: Global,
    folder: &mut C,
    stage: &mut Stage,
    word: &str,
    rest: &str,
) -> Result<bool, Halt> {
    match word {
        "file" => place_file(alloc, folder, stage, rest)?,
        "text" => place_text(alloc, stage, rest)?,
        "long" => place_long(alloc, stage, rest)?,
        "edit" => edit_file(alloc, stage, rest)?,
        "hash" => hash_file(alloc, stage, rest)?,
        "none" => remove(&mut stage.papers, rest),
        _ => return Ok(false),
    }
    Ok(true)
}

/// The lines that say what fails.
fn let_fail(alloc: Global, failing: &mut Failing, word: &str, rest: &str) -> Result<bool, Halt> {
    match word {
        "fails" => failing.machine = numbers(alloc, rest)?,
        "takes" => failing.cabinet = numbers(alloc, rest)?,
        "room" => failing.room = number(rest)?,
        _ => return Ok(false),
    }
    Ok(true)
}

/// Keeps what both flashes hold under a name.
fn keep(alloc: Global, stage: &mut Stage, name: &str) -> Result<(), Halt> {
    let kept = Kept {
        name: String::from_str(alloc, name)?,
        flashes: copied(alloc, &stage.flashes)?,
    };
    stage.kept.push(kept)?;
    Ok(())
}

/// Brings kept flashes back, or one of them.
fn bring_back(alloc: Global, stage: &mut Stage, rest: &str) -> Result<(), Halt> {
    let (name, dev) = head(rest);
    let kept = copied(alloc, kept_as(&stage.kept, name)?)?;
    if dev.is_empty() {
        stage.flashes = kept;
        return Ok(());
    }
    match device(dev)? {
        Dev::Internal => stage.flashes.internal = kept.internal,
        Dev::External => stage.flashes.external = kept.external,
    }
    Ok(())
}

/// Puts bytes, as hexadecimal digits, on a device.
fn set_bytes(alloc: Global, stage: &mut Stage, rest: &str) -> Result<(), Halt> {
    let (dev, rest) = head(rest);
    let (at, digits) = head(rest);
    let bytes = hex_bytes(alloc, digits)?;
    let at = number(at)? as usize;
    match device(dev)? {
        Dev::Internal => set(&mut stage.flashes.internal, at, &bytes),
        Dev::External => set(&mut stage.flashes.external, at, &bytes),
    }
    Ok(())
}

/// Leaves what a power cut leaves after some operations of the last command.
fn stop(alloc: Global, stage: &mut Stage, rest: &str) -> Result<(), Halt> {
    let (ops, way) = head(rest);
    let fill = fill_of(alloc, &stage.kept, way)?;
    let last = last_of(&stage.last)?;
    stage.flashes = power_cut(alloc, &last.ran.machine, number(ops)?, fill)?;
    Ok(())
}

/// The lines that change what both flashes hold.
fn change(alloc: Global, stage: &mut Stage, word: &str, rest: &str) -> Result<bool, Halt> {
    match word {
        "blank" if rest.is_empty() => stage.flashes = blank(alloc, Program::Urna.device_size())?,
        "blank" if rest == "livro" => stage.flashes = blank(alloc, Program::Ledger.device_size())?,
        "keep" => keep(alloc, stage, rest)?,
        "back" => bring_back(alloc, stage, rest)?,
        "shut" => shut_device(&mut stage.flashes, device(rest)?),
        "set" => set_bytes(alloc, stage, rest)?,
        "stop" => stop(alloc, stage, rest)?,
        _ => return Ok(false),
    }
    Ok(true)
}

/// The flashes of the script hold what a command left, and the files that it put are among the files.
fn take_over(alloc: Global, stage: &mut Stage, ran: &Ran) -> Result<(), Halt> {
    stage.flashes = left(alloc, &ran.machine)?;
    for paper in &ran.made {
        let bytes = paper.bytes.to_vec(alloc)?;
        place(alloc, &mut stage.papers, &paper.name, bytes)?;
    }
    Ok(())
}

/// Runs a command over flashes, and takes over what it left. It is the last command then.
fn command(alloc: Global, stage: &mut Stage, call: Call, given: Flashes) -> Result<(), Halt> {
    let ran = run(alloc, &stage.papers, &stage.failing, &call, &given)?;
    take_over(alloc, stage, &ran)?;
    stage.last = Some(Last { call, given, ran });
    Ok(())
}

/// Prints what the last command has shown behind what was shown before, and how it ended.
fn say_last(alloc: Global, stage: &Stage, before: &str, out: &mut String) -> Result<(), Halt> {
    say_ran(alloc, &last_of(&stage.last)?.ran, before, out)
}

/// Begins a session of the section, in which nothing is pressed yet.
fn begin_session(alloc: Global, stage: &mut Stage, out: &mut String) -> Result<(), Halt> {
    let given = copied(alloc, &stage.flashes)?;
    command(alloc, stage, session_of(alloc, String::new(alloc))?, given)?;
    say_last(alloc, stage, "", out)
}

/// Presses one more line. The session is run again from its beginning, and what it shows more than before is what came of the line.
fn press(alloc: Global, stage: &mut Stage, line: &str, out: &mut String) -> Result<(), Halt> {
    let last = last_of(&stage.last)?;
    let Some(keys) = &last.call.keys else {
        return Err(Halt::Script);
    };
    let call = session_of(alloc, format!(in alloc; "{keys}{line}\n")?)?;
    let given = copied(alloc, &last.given)?;
    let before = String::from_str(alloc, shown(&last.ran.machine)?)?;
    command(alloc, stage, call, given)?;
    say_last(alloc, stage, &before, out)
}

/// Runs a command of the script's own words.
fn run_words(alloc: Global, stage: &mut Stage, words: &str) -> Result<(), Halt> {
    let given = copied(alloc, &stage.flashes)?;
    command(alloc, stage, call_of(alloc, words)?, given)
}

/// Runs one, and prints what it shows.
fn run_shown(alloc: Global, stage: &mut Stage, words: &str, out: &mut String) -> Result<(), Halt> {
    run_words(alloc, stage, words)?;
    say_last(alloc, stage, "", out)
}

/// Runs one of which no shown line is printed.
fn run_hushed(alloc: Global, stage: &mut Stage, words: &str, out: &mut String) -> Result<(), Halt> {
    run_words(alloc, stage, words)?;
    say_end(alloc, &last_of(&stage.last)?.ran, out)
}

/// Runs the last command over the flashes that it was given and the files as they are now, and prints what it shows.
fn say_once_more(alloc: Global, stage: &Stage, out: &mut String) -> Result<(), Halt> {
    let last = last_of(&stage.last)?;
    let ran = run(
        alloc,
        &stage.papers,
        &stage.failing,
        &last.call,
        &last.given,
    )?;
    say_ran(alloc, &ran, "", out)
}

/// The last command over the flashes that it was given and other bytes of a document. Nothing stays of it.
fn run_over(
    alloc: Global,
    stage: &mut Stage,
    name: &str,
    bytes: Vec<u8>,
    out: &mut String,
) -> Result<(), Halt> {
    let whole = bytes_of(&stage.papers, name)?.to_vec(alloc)?;
    place(alloc, &mut stage.papers, name, bytes)?;
    say_once_more(alloc, stage, out)?;
    place(alloc, &mut stage.papers, name, whole)
}

/// The last command over a changed document.
fn run_again(alloc: Global, stage: &mut Stage, rest: &str, out: &mut String) -> Result<(), Halt> {
    let (name, changes) = head(rest);
    let bytes = edited(alloc, bytes_of(&stage.papers, name)?, changes)?;
    run_over(alloc, stage, name, bytes, out)
}

/// The same, where the changed document is the file of a report, whose hashes are made anew.
fn run_anew(alloc: Global, stage: &mut Stage, rest: &str, out: &mut String) -> Result<(), Halt> {
    let (name, changes) = head(rest);
    let bytes = edited(alloc, bytes_of(&stage.papers, name)?, changes)?;
    let bytes = hashed(alloc, &bytes)?;
    run_over(alloc, stage, name, bytes, out)
}

/// The lines that are commands.
fn act(
    alloc: Global,
    stage: &mut Stage,
    word: &str,
    line: &str,
    rest: &str,
    out: &mut String,
) -> Result<bool, Halt> {
    match word {
        "urna" => run_shown(alloc, stage, rest, out)?,
        "livro" => run_shown(alloc, stage, line, out)?,
        "hush" => run_hushed(alloc, stage, rest, out)?,
        "session" if rest.is_empty() => begin_session(alloc, stage, out)?,
        "M" | "E" => press(alloc, stage, line, out)?,
        "again" => run_again(alloc, stage, rest, out)?,
        "anew" => run_anew(alloc, stage, rest, out)?,
        _ => return Ok(false),
    }
    Ok(true)
}

/// One line of a script. An empty one, and one that begins with `#`, says nothing.
pub(crate) fn step<C: Cabinet>(
    alloc: Global,
    folder: &mut C,
    stage: &mut Stage,
    line: &str,
    out: &mut String,
) -> Result<(), Halt> {
    if line.is_empty() || line.starts_with("#") {
        return Ok(());
    }
    let (word, rest) = head(line);
    let known = give(alloc, folder, stage, word, rest)?
        || let_fail(alloc, &mut stage.failing, word, rest)?
        || change(alloc, stage, word, rest)?
        || act(alloc, stage, word, line, rest, out)?
        || look(alloc, stage, word, rest, out)?
        || look_at_each(alloc, stage, word, rest, out)?;
    if known { Ok(()) } else { Err(Halt::Script) }
}
