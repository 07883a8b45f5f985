//! How a state is written into the body of a slot.
ghost use Rattle.std.specs.Prelude.{◌≡◌, ◌+◌, ◌-◌, ◌*◌, ◌<◌, ◌≤◌, ◌++◌, length, map, replicate, take};
ghost use Rattle.std.specs.Int.{w32, to_be_bytes};
ghost use Rattle.std.specs.List.{flat_map, zip};
ghost use Rattle.election_tables.specs.Limits.{most_parties};
ghost use Rattle.election_tables.specs.TablesData.{candidates_at};
ghost use Rattle.vote_kinds.specs.Ballot.{lines_by_panel, line_of};
ghost use Rattle.vote_record.specs.Bag.{bag_at, count_of};
ghost use Rattle.image_codec.specs.Layout.{body_size, counter_size, head_size, turnout_size, version};
ghost use Rattle.image_codec.specs.Encoding.{IsStateOf, encode, eight_places, head_bytes, counter_bytes, counts_bytes, turnout_bytes};

use super::layout::{COUNTERS_OFFSET, TURNOUT_SIZE, VERSION};
use crate::state::State;
use election_tables::Tables;
use turnout::{Phase, Turnout};
use urna_base::{put_be32, put_be64};
use vote_kinds::{Choice, chosen_parties};
use vote_record::Rdv;

/// Writes the body of a slot (docs/FORMATS.md, "The body"): the state as the second version has it, and zeros after it. It
/// takes no memory, and time for the counters of the tables and for the zeros.
///
/// The caller owes a whole body of BODY_SIZE bytes, and that the state is one of a poll of these tables.
pub fn encode_into(state: &State, tables: &Tables, into: &mut [u8])
    requires body { length into.old ≡ body_size }
    requires state { IsStateOf tables.now (length state.now.came) state.now }
    ensures { into.new ≡ encode tables.now state.now }
{
    let end = put_head(state, tables.panels() as u8, into);
    let end = put_zeros(into, end, COUNTERS_OFFSET);
    let end = put_counters(state.votes(), tables, into, end);
    into[end..].fill(0);
}

/// The head goes to the front. This and each call below answers where its text ends.
fn put_head(state: &State, panels: u8, into: &mut [u8]) -> usize
    requires panels { panels ≡ length state.now.bags }
    requires room { head_size ≤ length into.old }
    ensures end { result ≡ head_size }
    ensures text { take result into.new ≡ head_bytes version state.now }
{
    let (code, opened, closed) = match state.phase() {
        Phase::Ready => (0, 0, 0),
        Phase::Polling { opened } => (1, opened, 0),
        Phase::Sealed { opened, closed } => (2, opened, closed),
    };
    let turnout = state.turnout();
    let end = put(into, 0, &[VERSION, code]);
    let end = put(into, end, &put_be64(opened));
    let end = put(into, end, &put_be64(closed));
    let end = put(into, end, &put_be32(turnout.len()));
    let end = put(into, end, &turnout_bytes(turnout));
    put(into, end, &[panels])
}

/// The counters of all panels. The caller owes that the record has a bag for each, and room.
fn put_counters(votes: &Rdv, tables: &Tables, into: &mut [u8], at: usize) -> usize
    requires panels { length votes.now.bags ≡ length tables.now.panels }
    requires room { at + length (flat_map counter_bytes (zip (lines_by_panel tables.now) votes.now.bags)) ≤ length into.old }
    ensures end { result ≡ at + length (flat_map counter_bytes (zip (lines_by_panel tables.now) votes.now.bags)) }
    ensures text { take result into.new ≡ take at into.old ++ flat_map counter_bytes (zip (lines_by_panel tables.now) votes.now.bags) }
{
    let mut end = at;
    for panel in 0..tables.panels() {
        end = put_panel(votes, tables, panel, into, end);
    }
    end
}

/// The counters of a panel, in the order of choices, part by part: place by place each look would begin at the panel again. The
/// caller owes that the tables and the record have it, and room.
fn put_panel(votes: &Rdv, tables: &Tables, panel: u32, into: &mut [u8], at: usize) -> usize
    requires panel { panel < length tables.now.panels }
    requires bag { panel < length votes.now.bags }
    requires room { at + length (counter_bytes (line_of tables.now panel, bag_at votes.now.bags panel)) ≤ length into.old }
    ensures end { result ≡ at + length (counter_bytes (line_of tables.now panel, bag_at votes.now.bags panel)) }
    ensures text { take result into.new ≡ take at into.old ++ counter_bytes (line_of tables.now panel, bag_at votes.now.bags panel) }
{
    let candidates = tables.candidate_count(panel);
    let parties = chosen_parties(tables, panel);
    let blank = candidates + parties;
    let end = put_candidates(votes, tables, panel, into, at);
    let end = put_parties(votes, tables, panel, parties, into, end);
    let end = put_count(votes, panel, blank, Choice::Blank, into, end);
    put_count(votes, panel, blank + 1, Choice::Null, into, end)
}

/// The counters of the candidates of a panel. The caller owes the same.
fn put_candidates(votes: &Rdv, tables: &Tables, panel: u32, into: &mut [u8], at: usize) -> usize
    requires panel { panel < length tables.now.panels }
    requires bag { panel < length votes.now.bags }
    requires room { at + counter_size * length (candidates_at panel tables.now) ≤ length into.old }
    ensures end { result ≡ at + counter_size * length (candidates_at panel tables.now) }
    ensures text { take result into.new ≡ take at into.old ++ counts_bytes (map (λ n. Choice.Nominal n) (line_of tables.now panel).candidates) (bag_at votes.now.bags panel) }
{
    let mut end = at;
    for i in 0..tables.candidate_count(panel) {
        let candidate = tables.candidate(panel, i);
        end = put_count(
            votes,
            panel,
            i,
            Choice::Nominal(candidate.number),
            into,
            end,
        );
    }
    end
}

/// The counters of the first so many parties in a panel. The caller owes the same, and that there are so many, and at most 40.
fn put_parties(
    votes: &Rdv,
    tables: &Tables,
    panel: u32,
    parties: u32,
    into: &mut [u8],
    at: usize,
) -> usize
    requires panel { panel < length tables.now.panels }
    requires bag { panel < length votes.now.bags }
    requires parties { parties ≤ length tables.now.parties }
    requires few { parties ≤ most_parties }
    requires room { at + counter_size * parties ≤ length into.old }
    ensures end { result ≡ at + counter_size * parties }
    ensures text { take result into.new ≡ take at into.old ++ counts_bytes (map (λ n. Choice.Party n) (take parties (map (λ q. q.number) tables.now.parties))) (bag_at votes.now.bags panel) }
{
    let first = tables.candidate_count(panel);
    let mut end = at;
    for i in 0..parties {
        let party = tables.party(i);
        end = put_count(votes, panel, first + i, Choice::Party(party), into, end);
    }
    end
}

/// The counter of a choice, which may be the one in this place of the record. The caller owes that the record has the panel, and
/// room.
fn put_count(
    votes: &Rdv,
    panel: u32,
    place: u32,
    choice: Choice,
    into: &mut [u8],
    at: usize,
) -> usize
    requires bag { panel < length votes.now.bags }
    requires room { at + counter_size ≤ length into.old }
    ensures end { result ≡ at + counter_size }
    ensures text { take result into.new ≡ take at into.old ++ to_be_bytes w32 (count_of choice (bag_at votes.now.bags panel)) }
{
    put(into, at, &put_be32(votes.count_near(panel, place, choice)))
}

/// Zeros up to a place. The caller owes that it is none before the first, and room.
fn put_zeros(into: &mut [u8], at: usize, end: usize) -> usize
    requires forth { at ≤ end }
    requires room { end ≤ length into.old }
    ensures end { result ≡ end }
    ensures text { take result into.new ≡ take at into.old ++ replicate (end - at) 0 }
{
    into[at..end].fill(0);
    end
}

/// Some bytes. The caller owes room.
fn put(into: &mut [u8], at: usize, bytes: &[u8]) -> usize
    requires { at + length bytes.now ≤ length into.old }
    ensures end { result ≡ at + length bytes.now }
    ensures text { take result into.new ≡ take at into.old ++ bytes.now }
{
    let end = at + bytes.len();
    into[at..end].copy_from_slice(bytes);
    end
}

/// A bit for each place that the bytes have, which is 1 where its voter came.
fn turnout_bytes(turnout: &Turnout) -> [u8; TURNOUT_SIZE]
    ensures { result ≡ turnout_bytes turnout.now }
{
    let mut bytes = [0; TURNOUT_SIZE];
    for k in 0..TURNOUT_SIZE {
        bytes[k] = eight_places(turnout, 8 * k as u32);
    }
    bytes
}

/// The marks of eight places, the first of which is this one.
fn eight_places(turnout: &Turnout, first: u32) -> u8
    requires { first < 8 * turnout_size }
    ensures { result ≡ eight_places turnout.now first }
{
    let mut byte = 0;
    for place in first..first + 8 {
        byte = 2 * byte + u8::from(turnout.came(place));
    }
    byte
}
