//! The head of a body, which both versions have.
ghost use Rattle.std.specs.Prelude.{◌≡◌, ◌<◌, ◌≤◌, false, length, replicate, option_map, IfSome};
ghost use Rattle.election_tables.specs.Limits.{most_voters};
ghost use Rattle.turnout.specs.Turnout.{number_came};
ghost use Rattle.image_codec.specs.DecodedHead.{phase_with, is_started, is_marked, marks_in, has_no_more, turnout_of, has_counts, phase_in};
ghost use Rattle.image_codec.specs.Layout.{head_size, turnout_places, turnout_size};

use super::layout::{
    CLOSING_OFFSET, COUNT_OFFSET, OPENING_OFFSET, PANELS_OFFSET, PHASE_OFFSET, TURNOUT_OFFSET,
    TURNOUT_PLACES,
};
use super::numbers::{number4_at, number8_at};
use turnout::{Phase, Turnout};
use urna_base::moment_ok;

/// What stands in the head of a body.
#[derive(Clone, Copy, Debug, PartialEq, Eq)]
pub(crate) struct Head {
    pub phase: Phase,
    pub came: u32,
}

#[tactic(auto, unfolding(crate::specs::DecodedHead::phase_with))]
fn phase_with(code: u8, opened: u64, closed: u64) -> Option<Phase>
    ensures { result ≡ phase_with code opened closed }
{
    match code {
        0 if opened == 0 && closed == 0 => Some(Phase::Ready),
        1 if moment_ok(opened) && closed == 0 => Some(Phase::Polling { opened }),
        2 if moment_ok(opened) && moment_ok(closed) && opened <= closed => {
            Some(Phase::Sealed { opened, closed })
        }
        _ => None,
    }
}

fn is_started(phase: Phase, came: u32) -> bool
    ensures { result ≡ is_started phase came }
{
    match phase {
        Phase::Ready => came == 0,
        Phase::Polling { .. } => true,
        Phase::Sealed { .. } => true,
    }
}

/// Whether a place is marked, in the bytes of the turnout.
fn is_marked(field: &[u8], place: u32) -> bool
    requires field { length field.now ≡ turnout_size }
    requires place { place < turnout_places }
    ensures { result ≡ is_marked field.now place }
{
    (field[(place / 8) as usize] >> (7 - place % 8)) % 2 == 1
}

/// How many voters of the roll are marked.
#[tactic(auto, using(crate::proofs::ReadParts::marks_none, crate::proofs::ReadParts::count_more))]
fn count_marks(field: &[u8], voters: u32) -> u32
    requires field { length field.now ≡ turnout_size }
    requires few { voters ≤ most_voters }
    ensures { result ≡ number_came (marks_in voters field.now) }
{
    let mut count = 0;
    for place in 0..voters {
        if is_marked(field, place) {
            count += 1;
        }
    }
    count
}

/// Whether no place past the roll is marked.
#[tactic(auto, using(crate::proofs::ReadParts::no_more_from, crate::proofs::ReadParts::no_more_ends))]
fn has_no_more(field: &[u8], voters: u32) -> bool
    requires field { length field.now ≡ turnout_size }
    requires few { voters ≤ most_voters }
    ensures { result ≡ has_no_more voters field.now }
{
    for place in voters..TURNOUT_PLACES {
        if is_marked(field, place) {
            return false;
        }
    }
    true
}

/// Whether so many came, none of them past the roll, and there are so many panels.
#[tactic(auto, unfolding(crate::specs::DecodedHead::has_counts))]
fn has_counts(voters: u32, came: u32, panels: u32, bytes: &[u8]) -> bool
    requires few { voters ≤ most_voters }
    requires bytes { head_size ≤ length bytes.now }
    ensures { result ≡ has_counts voters came panels bytes.now }
{
    number4_at(bytes, COUNT_OFFSET) == came
        && has_no_more(&bytes[TURNOUT_OFFSET..PANELS_OFFSET], voters)
        && u32::from(bytes[PANELS_OFFSET]) == panels
}

/// What stands in the head, if all of it but the version is as it is written.
#[tactic(auto, unfolding(crate::specs::DecodedHead::phase_in))]
pub(super) fn head_in(voters: u32, panels: u32, bytes: &[u8]) -> Option<Head>
    requires few { voters ≤ most_voters }
    requires bytes { head_size ≤ length bytes.now }
    ensures phase { option_map (λ h. h.phase) result ≡ phase_in voters panels bytes.now }
    ensures came { IfSome result (λ h. h.came ≡ number_came (marks_in voters (turnout_of bytes.now))) }
{
    let came = count_marks(&bytes[TURNOUT_OFFSET..PANELS_OFFSET], voters);
    if !has_counts(voters, came, panels, bytes) {
        return None;
    }
    let phase = phase_with(
        bytes[PHASE_OFFSET],
        number8_at(bytes, OPENING_OFFSET),
        number8_at(bytes, CLOSING_OFFSET),
    )?;
    if is_started(phase, came) {
        Some(Head { phase, came })
    } else {
        None
    }
}

/// Marks whom a body marks. The caller owes that nobody came yet.
pub(crate) fn fill_turnout(turnout: &mut Turnout, bytes: &[u8])
    requires nobody { turnout.old ≡ replicate (length turnout.old) false }
    requires bytes { head_size ≤ length bytes.now }
    ensures { turnout.new ≡ marks_in (length turnout.old) (turnout_of bytes.now) }
{
    let field = &bytes[TURNOUT_OFFSET..PANELS_OFFSET];
    for place in 0..turnout.voters() {
        if is_marked(field, place) {
            turnout.mark(place);
        }
    }
}
