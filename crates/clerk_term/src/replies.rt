ghost use Rattle.std.specs.Prelude.{◌≡◌};
ghost use Rattle.clerk_term.specs.Reply.{answer_to, polling_answer, ready_answer, title_answer};

use election_tables::Roll;
use key_script::ClerkKey;
use turnout::{Phase, Turnout};

/// Who is at the station, by the place in the roll.
#[derive(Clone, Copy, Debug, PartialEq, Eq)]
pub enum Mode {
    Idle,
    Identified(u32),
    Voting(u32),
}

/// What a key of the clerk does. The number is that of the refusal, the voter's place, or the moment.
#[derive(Clone, Copy, Debug, PartialEq, Eq)]
pub enum ClerkAnswer {
    Refused(u8),
    Opens(u64),
    Identifies(u32),
    Releases(u32),
    Cancels(u32),
    Suspends(u32),
    Seals(u64),
}

/// What a key of the clerk does, by the phase of the poll, who came, and who is at the station (docs/RULES.md, "The clerk").
pub fn reply(phase: Phase, turnout: &Turnout, roll: &Roll, mode: Mode, key: ClerkKey) -> ClerkAnswer
    ensures { result ≡ answer_to roll.now.titles phase turnout.now mode key }
{
    match phase {
        Phase::Ready => ready_reply(key),
        Phase::Polling { opened } => polling_reply(opened, turnout, roll, mode, key),
        Phase::Sealed { .. } => ClerkAnswer::Refused(3),
    }
}

fn ready_reply(key: ClerkKey) -> ClerkAnswer
    ensures { result ≡ ready_answer key }
{
    match key {
        ClerkKey::Abre(moment) => ClerkAnswer::Opens(moment),
        _ => ClerkAnswer::Refused(1),
    }
}

fn polling_reply(
    opened: u64,
    turnout: &Turnout,
    roll: &Roll,
    mode: Mode,
    key: ClerkKey,
) -> ClerkAnswer
    ensures { result ≡ polling_answer roll.now.titles opened turnout.now mode key }
{
    match (key, mode) {
        (ClerkKey::Abre(_), _) => ClerkAnswer::Refused(2),
        (ClerkKey::Titulo(title), _) => title_reply(turnout, mode, roll.place(title)),
        (ClerkKey::Suspende, Mode::Voting(place)) => ClerkAnswer::Suspends(place),
        (ClerkKey::Suspende, _) => ClerkAnswer::Refused(8),
        (_, Mode::Voting(_)) => ClerkAnswer::Refused(6),
        (ClerkKey::Libera, Mode::Idle) => ClerkAnswer::Refused(7),
        (ClerkKey::Libera, Mode::Identified(place)) => ClerkAnswer::Releases(place),
        (ClerkKey::Cancela, Mode::Idle) => ClerkAnswer::Refused(7),
        (ClerkKey::Cancela, Mode::Identified(place)) => ClerkAnswer::Cancels(place),
        (ClerkKey::Encerra(_), Mode::Identified(_)) => ClerkAnswer::Refused(6),
        (ClerkKey::Encerra(moment), Mode::Idle) => {
            if moment < opened {
                ClerkAnswer::Refused(9)
            } else {
                ClerkAnswer::Seals(moment)
            }
        }
    }
}

/// The reply to a title of this place in the roll, or of none.
fn title_reply(turnout: &Turnout, mode: Mode, place: Option<u32>) -> ClerkAnswer
    ensures { result ≡ title_answer turnout.now mode place }
{
    match place {
        None => ClerkAnswer::Refused(4),
        Some(place) if turnout.came(place) => ClerkAnswer::Refused(5),
        Some(place) if mode == Mode::Idle => ClerkAnswer::Identifies(place),
        Some(_) => ClerkAnswer::Refused(6),
    }
}
