//! The counters of a body of the second version: whether they count all votes, and taking them on.
ghost use Rattle.std.specs.Prelude.{◌≡◌, ◌-◌, ◌*◌, ◌<◌, ◌≤◌, ℕ, [], length, replicate, slice_set, sum, unwrap_or, IsSome};
ghost use Rattle.std.specs.Option.{is_some};
ghost use Rattle.election_tables.specs.Limits.{most_voters};
ghost use Rattle.election_tables.specs.TablesData.{IsTables, places_at};
ghost use Rattle.vote_kinds.specs.Ballot.{lines_by_panel, line_of, choices_of};
ghost use Rattle.vote_record.specs.Bag.{bag_at};
ghost use Rattle.vote_record.specs.RdvData.{room_at};
ghost use Rattle.vote_record.specs.Counters.{bag_with};
ghost use Rattle.image_codec.specs.Numbers.{counters_in};
ghost use Rattle.image_codec.specs.DecodedCounters.{bags_counted};
ghost use Rattle.image_codec.specs.Decoded.{bags_second};
ghost use Rattle.image_codec.specs.Layout.{body_size, counter_size, counters_offset};

use super::layout::{COUNTER_SIZE, COUNTERS_OFFSET, HEAD_SIZE};
use super::numbers::number4_at;
use election_tables::Tables;
use urna_base::is_zero;
use vote_kinds::{choice_at, choice_count};
use vote_record::Rdv;

/// The sum of so many counters.
fn sum_of(counters: u32, bytes: &[u8]) -> u64
    requires { counter_size * counters ≤ length bytes.now }
    ensures { result ≡ sum (counters_in counters bytes.now) }
{
    let mut sum = 0;
    for k in 0..counters {
        sum += u64::from(number4_at(bytes, COUNTER_SIZE * k as usize));
    }
    sum
}

/// Whether zeros stand behind the head, and then the counters of each panel, which count all votes of so many voters, and
/// zeros behind the last.
pub(super) fn has_counters(tables: &Tables, came: u32, bytes: &[u8]) -> bool
    requires few { came ≤ most_voters }
    requires whole { length bytes.now ≡ body_size }
    ensures { result ≡ is_some (bags_second (lines_by_panel tables.now) came bytes.now) }
{
    is_zero(&bytes[HEAD_SIZE..COUNTERS_OFFSET])
        && are_counted(tables, came, bytes.split_at(COUNTERS_OFFSET).1)
}

/// Whether the counters of each panel count all votes of so many voters, and zeros are behind the last.
fn are_counted(tables: &Tables, came: u32, bytes: &[u8]) -> bool
    requires few { came ≤ most_voters }
    requires bytes { body_size - counters_offset ≤ length bytes.now }
    ensures { result ≡ is_some (bags_counted (lines_by_panel tables.now) came bytes.now) }
{
    let mut rest = bytes;
    for panel in 0..tables.panels() {
        let counters = choice_count(tables, panel);
        let count = came * tables.places(panel);
        if sum_of(counters, rest) != u64::from(count) {
            return false;
        }
        rest = rest.split_at(COUNTER_SIZE * counters as usize).1;
    }
    is_zero(rest)
}

/// Adds the votes that are counted, in all panels. The caller owes that the record has none yet and room for the votes of so
/// many voters, and that the body has their counters.
pub(super) fn fill_counters(votes: &mut Rdv, tables: &Tables, came: u32, bytes: &[u8])
    requires few { came ≤ most_voters }
    requires none { votes.old.bags ≡ replicate (length tables.now.panels) [] }
    requires room { (panel : ℕ) → panel < length tables.now.panels → came * places_at tables.now panel ≤ room_at votes.old panel }
    requires whole { length bytes.now ≡ body_size }
    requires bags { IsSome (bags_second (lines_by_panel tables.now) came bytes.now) }
    ensures { votes.new ≡ record votes.old { bags = unwrap_or (bags_second (lines_by_panel tables.now) came bytes.now) [] } }
{
    let mut rest = bytes.split_at(COUNTERS_OFFSET).1;
    for panel in 0..tables.panels() {
        let counters = choice_count(tables, panel);
        fill_panel(votes, tables, panel, counters, rest);
        rest = rest.split_at(COUNTER_SIZE * counters as usize).1;
    }
}

/// Adds the votes that the counters of a panel count.
fn fill_panel(votes: &mut Rdv, tables: &Tables, panel: u32, counters: u32, bytes: &[u8])
    requires tables { IsTables tables.now }
    requires panel { panel < length tables.now.panels }
    requires panels { length votes.old.bags ≡ length tables.now.panels }
    requires none { bag_at votes.old.bags panel ≡ [] }
    requires counters { counters ≡ length (choices_of (line_of tables.now panel)) }
    requires bytes { counter_size * counters ≤ length bytes.now }
    requires room { sum (counters_in counters bytes.now) ≤ room_at votes.old panel }
    ensures { votes.new ≡ record votes.old { bags = slice_set votes.old.bags panel (bag_with (choices_of (line_of tables.now panel)) (counters_in counters bytes.now)) } }
{
    for place in 0..counters {
        let count = number4_at(bytes, COUNTER_SIZE * place as usize);
        if count > 0 {
            votes.add_votes(tables, panel, place, choice_at(tables, panel, place), count);
        }
    }
}
