//! What is left where a command is stopped: behind each of its operations, inside of one, or at each of its calls.
use crate::calls::{Call, Program, Ran, call_of, push_files, run, session_of, shown};
use crate::ranks::told_ranks;
use crate::runs::{Runs, Ways};
use crate::stage::{Last, Stage, last_of};
use case_parts::{
    Failing, Fill, Flashes, Halt, Paper, WAYS, are_same, copied, head, is_left, kept_as, left,
    no_flashes, numbers, power_cut, power_cut_inside, shut_device,
};
use memory_outside::{Recorder, Tear};
use std::alloc::Global;
use urna_outside::Dev;

/// What a command has shown, and its number where it isn't 0.
fn told_ran(alloc: Global, ran: &Ran) -> Result<String, Halt> {
    let text = shown(&ran.machine)?.trim_end();
    if ran.code == 0 {
        return Ok(String::from_str(alloc, text)?);
    }
    Ok(format!(in alloc; "{text} = {}", ran.code)?)
}

/// What a command without failing calls shows over some flashes.
pub(crate) fn told_by(
    alloc: Global,
    papers: &[Paper],
    call: &Call,
    flashes: &Flashes,
) -> Result<String, Halt> {
    told_ran(
        alloc,
        &run(alloc, papers, &Failing::none(alloc), call, flashes)?,
    )
}

/// What a session without presses tells over some flashes, in one line.
pub(crate) fn told(alloc: Global, papers: &[Paper], flashes: &Flashes) -> Result<String, Halt> {
    let call = session_of(alloc, String::new(alloc))?;
    told_by(alloc, papers, &call, flashes)
}

/// What a command tells over the one device alone: the other has no open slot.
fn told_alone(
    alloc: Global,
    papers: &[Paper],
    call: &Call,
    flashes: &Flashes,
    other: Dev,
) -> Result<String, Halt> {
    let mut alone = copied(alloc, flashes)?;
    shut_device(&mut alone, other);
    told_by(alloc, papers, call, &alone)
}

/// Puts what a command tells over each device alone behind what it tells over both, where that is something else.
fn push_alone(
    alloc: Global,
    papers: &[Paper],
    call: &Call,
    flashes: &Flashes,
    both: &mut String,
) -> Result<(), Halt> {
    let internal = told_alone(alloc, papers, call, flashes, Dev::External)?;
    let external = told_alone(alloc, papers, call, flashes, Dev::Internal)?;
    if internal == *both && external == *both {
        return Ok(());
    }
    both.push_str("; internal ")?;
    both.push_str(&internal)?;
    both.push_str("; external ")?;
    both.push_str(&external)?;
    Ok(())
}

/// What it tells over both devices together, and over each alone.
fn told_over_all(
    alloc: Global,
    papers: &[Paper],
    call: &Call,
    flashes: &Flashes,
) -> Result<String, Halt> {
    let mut text = told_by(alloc, papers, call, flashes)?;
    push_alone(alloc, papers, call, flashes, &mut text)?;
    Ok(text)
}

/// What a session without presses tells so.
pub(crate) fn told_by_all(
    alloc: Global,
    papers: &[Paper],
    flashes: &Flashes,
) -> Result<String, Halt> {
    let call = session_of(alloc, String::new(alloc))?;
    told_over_all(alloc, papers, &call, flashes)
}

/// What of flashes that are left is told.
#[derive(Clone, Copy)]
enum How<'a> {
    /// What a session tells over both devices, and each alone.
    Session,
    /// The ranks in the open slots.
    Ranks,
    /// Both of these.
    SessionAndRanks,
    /// What a command of these words shows over both devices; one of a ledger over each alone too.
    Command(&'a str),
}

/// What a command of these words tells.
fn told_by_words(
    alloc: Global,
    papers: &[Paper],
    words: &str,
    flashes: &Flashes,
) -> Result<String, Halt> {
    let call = call_of(alloc, words)?;
    match call.program {
        Program::Urna => told_by(alloc, papers, &call, flashes),
        Program::Ledger => told_over_all(alloc, papers, &call, flashes),
    }
}

fn told_of(
    alloc: Global,
    papers: &[Paper],
    how: How<'_>,
    flashes: &Flashes,
) -> Result<String, Halt> {
    match how {
        How::Session => told_by_all(alloc, papers, flashes),
        How::Ranks => told_ranks(alloc, papers, flashes),
        How::SessionAndRanks => {
            let mut text = told_by_all(alloc, papers, flashes)?;
            text.push_str(", ")?;
            text.push_str(&told_ranks(alloc, papers, flashes)?)?;
            Ok(text)
        }
        How::Command(words) => told_by_words(alloc, papers, words, flashes),
    }
}

/// Tells what is left, one way after another, and remembers what it told last: most flashes that are left one after another are the same.
#[derive(Drop)]
struct Teller<'a> {
    papers: &'a [Paper],
    how: How<'a>,
    last: Flashes,
    text: String,
    ways: Ways,
}

impl<'a> Teller<'a> {
    fn new(alloc: Global, papers: &'a [Paper], how: How<'a>) -> Teller<'a> {
        Teller {
            papers,
            how,
            last: no_flashes(alloc),
            text: String::new(alloc),
            ways: Ways::new(alloc),
        }
    }

    fn tell(&mut self, alloc: Global, way: &str, flashes: Flashes) -> Result<(), Halt> {
        if !are_same(&self.last, &flashes) {
            self.text = told_of(alloc, self.papers, self.how, &flashes)?;
            self.last = flashes;
        }
        self.ways.add(way, &self.text)
    }
}

/// Whether a power cut behind some operations leaves no torn bytes.
fn is_clean(alloc: Global, m: &Recorder, ops: u32) -> Result<bool, Halt> {
    let zeros = power_cut(alloc, m, ops, Fill::Torn(Tear::Byte(0)))?;
    let ones = power_cut(alloc, m, ops, Fill::Torn(Tear::Byte(1)))?;
    Ok(are_same(&zeros, &ones))
}

/// Tells what is left behind some operations, over each way in which torn bytes may stand, at last as in other flashes. Where nothing is
/// dirty they are one.
fn tell_at(
    alloc: Global,
    teller: &mut Teller<'_>,
    m: &Recorder,
    ops: u32,
    later: &Flashes,
) -> Result<(), Halt> {
    teller.ways.clear();
    if is_clean(alloc, m, ops)? {
        return teller.tell(
            alloc,
            "whole",
            power_cut(alloc, m, ops, Fill::Torn(Tear::AsPut))?,
        );
    }
    for (name, tear) in WAYS {
        teller.tell(alloc, name, power_cut(alloc, m, ops, Fill::Torn(tear))?)?;
    }
    teller.tell(alloc, "later", power_cut(alloc, m, ops, Fill::Like(later))?)
}

/// Prints what is told behind each operation of a command.
fn say_each(
    alloc: Global,
    teller: &mut Teller<'_>,
    m: &Recorder,
    later: &Flashes,
    out: &mut String,
) -> Result<(), Halt> {
    let mut runs = Runs::new(alloc);
    for ops in 0..=m.trail_len() {
        tell_at(alloc, teller, m, ops, later)?;
        runs.add(alloc, teller.ways.text(), out)?;
    }
    runs.say(alloc, out)
}

/// Prints what is told behind each operation of the last command.
fn say_stops(
    alloc: Global,
    stage: &Stage,
    later: &str,
    how: How<'_>,
    out: &mut String,
) -> Result<(), Halt> {
    let later = kept_as(&stage.kept, later)?;
    let machine = &last_of(&stage.last)?.ran.machine;
    let mut teller = Teller::new(alloc, &stage.papers, how);
    say_each(alloc, &mut teller, machine, later, out)
}

/// The stops as sessions tell them, or a command of the words behind the name of the kept flashes.
pub(crate) fn each_stop(
    alloc: Global,
    stage: &Stage,
    rest: &str,
    out: &mut String,
) -> Result<(), Halt> {
    let (later, words) = head(rest);
    let how = if words.is_empty() {
        How::Session
    } else {
        How::Command(words)
    };
    say_stops(alloc, stage, later, how, out)
}

/// The stops as the ranks in the open slots tell them.
pub(crate) fn each_rank(
    alloc: Global,
    stage: &Stage,
    later: &str,
    out: &mut String,
) -> Result<(), Halt> {
    say_stops(alloc, stage, later, How::Ranks, out)
}

/// Tells what is left where the operation behind some others has put its bytes up to each of some places.
fn tell_inside(
    alloc: Global,
    teller: &mut Teller<'_>,
    m: &Recorder,
    ops: u32,
    places: &[u32],
) -> Result<(), Halt> {
    teller.ways.clear();
    for at in places {
        let way = format!(in alloc; "{at}")?;
        teller.tell(alloc, &way, power_cut_inside(alloc, m, ops, *at as usize)?)?;
    }
    Ok(())
}

/// Prints what is told where each operation of a command is stopped so.
fn say_inside(
    alloc: Global,
    teller: &mut Teller<'_>,
    m: &Recorder,
    places: &[u32],
    out: &mut String,
) -> Result<(), Halt> {
    let mut runs = Runs::new(alloc);
    for ops in 0..m.trail_len() {
        tell_inside(alloc, teller, m, ops, places)?;
        runs.add(alloc, teller.ways.text(), out)?;
    }
    runs.say(alloc, out)
}

/// Prints what is told where each operation of the last command is stopped when it has put its bytes up to each of some places.
pub(crate) fn each_piece(
    alloc: Global,
    stage: &Stage,
    rest: &str,
    out: &mut String,
) -> Result<(), Halt> {
    let places = numbers(alloc, rest)?;
    let machine = &last_of(&stage.last)?.ran.machine;
    let mut teller = Teller::new(alloc, &stage.papers, How::SessionAndRanks);
    say_inside(alloc, &mut teller, machine, &places, out)
}

/// The last command again, where the calls of these numbers fail.
fn again(alloc: Global, stage: &Stage, last: &Last, calls: &[u32]) -> Result<Ran, Halt> {
    let failing = Failing {
        machine: calls.to_vec(alloc)?,
        ..Failing::none(alloc)
    };
    run(alloc, &stage.papers, &failing, &last.call, &last.given)
}

/// The last line that was shown, which may be cut off.
pub(crate) fn last_line(text: &str) -> &str {
    match text.trim_end().rsplit_once("\n") {
        Some((_, line)) => line,
        None => text.trim_end(),
    }
}

/// Whether two machines have done and shown the same, and hold the same.
fn have_done_same(alloc: Global, one: &Recorder, other: &Recorder) -> Result<bool, Halt> {
    Ok(
        one.trail_len() == other.trail_len()
            && one.shown() == other.shown()
            && is_left(one, &left(alloc, other)?),
    )
}

/// Whether a call showed a front of what the last command showed, and nothing more is done where the call behind the failed one fails too.
fn is_front(alloc: Global, stage: &Stage, last: &Last, ran: &Ran, call: u32) -> Result<bool, Halt> {
    let twice = again(alloc, stage, last, &[call, call.saturating_add(1)])?;
    let same = have_done_same(alloc, &twice.machine, &ran.machine)?;
    Ok(same && last.ran.machine.shown().starts_with(ran.machine.shown()))
}

/// What comes of a call that failed: the number, the last line that was shown, and what is left.
fn told_failed(alloc: Global, ran: &Ran, is_front: bool, left: &str) -> Result<String, Halt> {
    let line = last_line(shown(&ran.machine)?);
    let front = if is_front { "" } else { "no front, " };
    let mut text = format!(in alloc; "= {} behind \"{line}\", {front}left {left}", ran.code)?;
    push_files(&mut text, ran)?;
    Ok(text)
}

/// The same of the last command where the call of a number fails, with what is left over each way in which torn bytes may stand.
fn told_of_call(
    alloc: Global,
    stage: &Stage,
    teller: &mut Teller<'_>,
    last: &Last,
    call: u32,
    later: &Flashes,
) -> Result<(u8, String), Halt> {
    let ran = again(alloc, stage, last, &[call])?;
    let is_front = is_front(alloc, stage, last, &ran, call)?;
    tell_at(alloc, teller, &ran.machine, ran.machine.trail_len(), later)?;
    let text = told_failed(alloc, &ran, is_front, teller.ways.text())?;
    Ok((ran.code, text))
}

/// The most calls that a command may have here.
const MOST_CALLS: u32 = 4_096;

/// Prints what comes of the last command where each of its calls fails once, up to a number that none of its calls has.
fn say_calls(
    alloc: Global,
    stage: &Stage,
    teller: &mut Teller<'_>,
    later: &Flashes,
    out: &mut String,
) -> Result<(), Halt> {
    let last = last_of(&stage.last)?;
    let mut runs = Runs::new(alloc);
    for call in 0..MOST_CALLS {
        let (code, text) = told_of_call(alloc, stage, teller, last, call, later)?;
        runs.add(alloc, &text, out)?;
        if code == last.ran.code {
            break;
        }
    }
    runs.say(alloc, out)
}

/// The same, with a later state under a name.
pub(crate) fn each_call(
    alloc: Global,
    stage: &Stage,
    later: &str,
    out: &mut String,
) -> Result<(), Halt> {
    let later = kept_as(&stage.kept, later)?;
    let mut teller = Teller::new(alloc, &stage.papers, How::SessionAndRanks);
    say_calls(alloc, stage, &mut teller, later, out)
}
