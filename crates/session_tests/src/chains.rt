//! Commands one after another, each of which is stopped behind an operation that a seed draws.
use crate::calls::{Call, Program, call_of, run, say, shown};
use crate::stage::{Stage, last_of};
use crate::stops::{told, told_by};
use case_parts::{
    Failing, Fill, Flashes, Halt, WAYS, copied, head, is_left, kept_as, number, power_cut,
};
use ledger_commands::LedgerStatus;
use memory_outside::Recorder;
use std::alloc::Global;
use urna_commands::Status;

/// How many calls a chain has.
const CALLS: u32 = 4;

/// The states of a session of three voters, as a session without presses tells each.
const HELD: [&str; 6] = [
    "URNA PRONTA 0",
    "URNA ABERTA 0",
    "URNA ABERTA 1",
    "URNA ABERTA 2",
    "URNA ABERTA 3",
    "URNA LACRADA 3",
];

/// The ledgers of two reports that are accepted one after the other, as a `recebe` of an empty list tells each.
const LEDGERS: [&str; 3] = ["LIVRO 0", "LIVRO 1", "LIVRO 2"];

/// How many operations the commit of an opening or of a closing has, which changes one page of each slot.
const OPENING: u32 = 24;

/// And that of a voter, which changes two.
const BALLOT: u32 = 28;

/// And that of an accepted report, which changes three: the number with the marks, the hash and the sums.
const REPORT: u32 = 32;

/// How many operations the commit of the state has that a line tells, if it tells one.
fn commit_before(line: &str) -> Option<u32> {
    if line.starts_with("F") {
        return Some(BALLOT);
    }
    if line.starts_with("ABERTA ") || line.starts_with("ENCERRADA ") {
        return Some(OPENING);
    }
    let (_, verdict) = head(line);
    if verdict.starts_with("ACEITO ") {
        return Some(REPORT);
    }
    None
}

/// How many operations these lines are, each with the commit before it.
fn operations(text: &str) -> u32 {
    let mut count = 0u32;
    for line in text.lines() {
        let commit = commit_before(line).unwrap_or(0);
        count = count.saturating_add(commit).saturating_add(1);
    }
    count
}

/// How many lines that tell a state the first operations of a call begin. Before all that the lines tell come the syncs, and what a
/// recovery writes that heals.
fn states_begun(whole: &Recorder, ops: u32) -> Result<usize, Halt> {
    let text = shown(whole)?;
    let mut at = whole.trail_len().saturating_sub(operations(text));
    let mut begun = 0usize;
    for line in text.lines() {
        let commit = commit_before(line);
        at = at.saturating_add(commit.unwrap_or(0));
        if at < ops && commit.is_some() {
            begun = begun.saturating_add(1);
        }
        at = at.saturating_add(1);
    }
    Ok(begun)
}

/// Numbers that a seed draws, by a linear congruential generator.
#[derive(Clone, Copy)]
struct Draws {
    state: u64,
}

impl Draws {
    /// The seed is spread over all bits and one number is left out, so that seeds beside each other draw even and odd numbers.
    fn of(seed: u64) -> Draws {
        let mut drawn = Draws {
            state: seed.wrapping_mul(0x9E37_79B9_7F4A_7C15),
        };
        let _first = drawn.below(1);
        drawn
    }

    /// A number below the given one, which isn't 0.
    fn below(&mut self, many: u32) -> u32 {
        self.state = self
            .state
            .wrapping_mul(6_364_136_223_846_793_005)
            .wrapping_add(1_442_695_040_888_963_407);
        let drawn = u32::try_from(self.state >> 32).unwrap_or(0);
        drawn.checked_rem(many).unwrap_or(0)
    }
}

/// What stands in torn bytes in one of five ways, of which the last is as in other flashes.
fn fill_at(later: &Flashes, way: u32) -> Fill<'_> {
    match WAYS.get(way as usize) {
        Some((_, tear)) => Fill::Torn(*tear),
        None => Fill::Like(later),
    }
}

/// Which state of a session, or which ledger, both flashes hold.
fn place_held(
    alloc: Global,
    stage: &Stage,
    program: Program,
    flashes: &Flashes,
) -> Result<Option<usize>, Halt> {
    match program {
        Program::Urna => {
            let line = told(alloc, &stage.papers, flashes)?;
            Ok(HELD.iter().position(|held| *held == line.as_str()))
        }
        Program::Ledger => {
            let call = call_of(alloc, "livro recebe t none")?;
            let line = told_by(alloc, &stage.papers, &call, flashes)?;
            Ok(LEDGERS.iter().position(|held| *held == line.as_str()))
        }
    }
}

/// The command of a chain beside the last one, which leads to no other state.
fn idle_of(alloc: Global, program: Program) -> Result<Call, Halt> {
    match program {
        Program::Urna => call_of(alloc, "emite t r o"),
        Program::Ledger => call_of(alloc, "livro totais t"),
    }
}

/// Whether a command that did all its steps ends with this number. That of a ledger may refuse some reports.
fn is_whole(code: u8) -> bool {
    code == 0 || code == LedgerStatus::SomeRefused(1).code()
}

/// A command over some flashes is stopped behind one of its operations, or before the first, and they hold what a power cut then leaves.
/// Answers how many lines that tell a state it began; nothing where the command, not stopped, would end with another number than it may.
fn stopped(
    alloc: Global,
    stage: &Stage,
    call: &Call,
    drawn: &mut Draws,
    flashes: &mut Flashes,
    later: &Flashes,
) -> Result<Option<usize>, Halt> {
    let ran = run(alloc, &stage.papers, &Failing::none(alloc), call, flashes)?;
    if !is_whole(ran.code) && ran.code != Status::NotSealed.code() {
        return Ok(None);
    }
    let ops = drawn.below(ran.machine.trail_len().saturating_add(1));
    let fill = fill_at(later, drawn.below(5));
    *flashes = power_cut(alloc, &ran.machine, ops, fill)?;
    Ok(Some(states_begun(&ran.machine, ops)?))
}

/// Whether behind each call of a chain both flashes hold the state whose line it began last, or, of the last command, the next; where it
/// began none, the state that it found. Where they do, the flashes hold what the chain leaves.
fn keeps_states(
    alloc: Global,
    stage: &Stage,
    idle: &Call,
    seed: u64,
    flashes: &mut Flashes,
    later: &Flashes,
) -> Result<bool, Halt> {
    let last = &last_of(&stage.last)?.call;
    let mut drawn = Draws::of(seed);
    let mut held = 0usize;
    for _ in 0..CALLS {
        let is_last = drawn.below(4) > 0;
        let call = if is_last { last } else { idle };
        let Some(begun) = stopped(alloc, stage, call, &mut drawn, flashes, later)? else {
            return Ok(false);
        };
        let Some(place) = place_held(alloc, stage, last.program, flashes)? else {
            return Ok(false);
        };
        let least = held.saturating_add(begun);
        let most = least.saturating_add(usize::from(is_last));
        if place < least || most < place {
            return Ok(false);
        }
        held = place;
    }
    Ok(true)
}

/// Whether a chain keeps the states, and the last command behind it each voter, or each report.
fn keeps_all(
    alloc: Global,
    stage: &Stage,
    idle: &Call,
    seed: u64,
    later: &Flashes,
) -> Result<bool, Halt> {
    let mut flashes = copied(alloc, &last_of(&stage.last)?.given)?;
    Ok(
        keeps_states(alloc, stage, idle, seed, &mut flashes, later)?
            && ends_as(alloc, stage, &flashes, later)?,
    )
}

/// Whether the last command behind a chain takes the voters, or the reports, that are left: it ends with what the kept flashes hold.
fn ends_as(alloc: Global, stage: &Stage, flashes: &Flashes, kept: &Flashes) -> Result<bool, Halt> {
    let call = &last_of(&stage.last)?.call;
    let ran = run(alloc, &stage.papers, &Failing::none(alloc), call, flashes)?;
    Ok(is_whole(ran.code) && is_left(&ran.machine, kept))
}

/// Prints the seeds of chains that don't keep each voter, or each report; of as many seeds as the number says. The last command, of which
/// the chains are and of the one that leads to no other state, is a session of three voters, or takes two reports in. Kept flashes hold
/// what it leaves, and at last torn bytes are as in them.
pub(crate) fn each_chain(
    alloc: Global,
    stage: &Stage,
    rest: &str,
    out: &mut String,
) -> Result<(), Halt> {
    let (count, later) = head(rest);
    let later = kept_as(&stage.kept, later)?;
    let program = last_of(&stage.last)?.call.program;
    let idle = idle_of(alloc, program)?;
    let one = match program {
        Program::Urna => "voter",
        Program::Ledger => "report",
    };
    let mut kept = 0u32;
    for seed in 0..number(count)? {
        if keeps_all(alloc, stage, &idle, u64::from(seed), later)? {
            kept = kept.saturating_add(1);
        } else {
            say(out, &format!(in alloc; "seed {seed} loses a {one}")?)?;
        }
    }
    say(out, &format!(in alloc; "{kept} keep each {one}")?)
}
