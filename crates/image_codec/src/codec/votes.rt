//! The bags of a body of the first version, vote by vote: whether they are there, and taking them on.
ghost use Rattle.std.specs.Prelude.{◌≡◌, ◌+◌, ◌*◌, ◌<◌, ◌≤◌, ℕ, [], length, slice_index, slice_set, replicate, unwrap_or, IsSome};
ghost use Rattle.std.specs.Option.{is_some};
ghost use Rattle.election_tables.specs.Limits.{most_voters, most_offices};
ghost use Rattle.election_tables.specs.TablesData.{places_at};
ghost use Rattle.vote_kinds.specs.Choice.{choice_with};
ghost use Rattle.vote_kinds.specs.Ballot.{lines_by_panel, line_of};
ghost use Rattle.vote_record.specs.Bag.{bag_at};
ghost use Rattle.vote_record.specs.RdvData.{room_at};
ghost use Rattle.image_codec.specs.Numbers.{number4_at};
ghost use Rattle.image_codec.specs.DecodedVotes.{vote_in, bag_in, bags_in};
ghost use Rattle.image_codec.specs.Layout.{bag_head_size, vote_size};

use super::layout::{BAG_HEAD_SIZE, VOTE_SIZE};
use super::numbers::number4_at;
use election_tables::Tables;
use urna_base::is_zero;
use vote_kinds::{Choice, is_choice};
use vote_record::Rdv;

/// The choice of the vote in front.
fn vote_at(bytes: &[u8]) -> Option<Choice>
    requires { vote_size ≤ length bytes.now }
    ensures { result ≡ choice_with (slice_index bytes.now 0) (number4_at bytes.now 1) }
{
    Choice::of_parts(bytes[0], number4_at(bytes, 1))
}

/// The vote in front, if it is a choice of the panel that stands at `before` or after it.
#[tactic(auto, unfolding(crate::specs::DecodedVotes::vote_in))]
fn vote_in(tables: &Tables, panel: u32, before: Choice, bytes: &[u8]) -> Option<Choice>
    requires panel { panel < length tables.now.panels }
    requires bytes { vote_size ≤ length bytes.now }
    ensures { result ≡ vote_in (line_of tables.now panel) before bytes.now }
{
    let choice = vote_at(bytes)?;
    if before.is_at_or_before(choice) && is_choice(tables, panel, choice) {
        Some(choice)
    } else {
        None
    }
}

/// Whether a bag of so many votes is in front.
#[tactic(auto, using(crate::proofs::ReadParts::bag_missing, crate::proofs::ReadParts::bag_starts))]
fn has_bag(tables: &Tables, panel: u32, count: u32, bytes: &[u8]) -> bool
    requires panel { panel < length tables.now.panels }
    requires bytes { bag_head_size + vote_size * count ≤ length bytes.now }
    ensures { result ≡ is_some (bag_in (line_of tables.now panel) count bytes.now) }
{
    if number4_at(bytes, 0) != count {
        return false;
    }
    let mut before = Choice::Nominal(0);
    let mut rest = bytes.split_at(BAG_HEAD_SIZE).1;
    for _ in 0..count {
        match vote_in(tables, panel, before, rest) {
            Some(choice) => before = choice,
            None => return false,
        }
        rest = rest.split_at(VOTE_SIZE).1;
    }
    true
}

/// Whether a bag with the votes of so many voters is there for each panel, and zeros after them.
pub(super) fn has_bags(tables: &Tables, came: u32, bytes: &[u8]) -> bool
    requires few { came ≤ most_voters }
    requires bytes { most_offices * (4 + 10 * came) ≤ length bytes.now }
    ensures { result ≡ is_some (bags_in (lines_by_panel tables.now) came bytes.now) }
{
    let mut rest = bytes;
    for panel in 0..tables.panels() {
        let count = came * tables.places(panel);
        if !has_bag(tables, panel, count, rest) {
            return false;
        }
        rest = rest.split_at(BAG_HEAD_SIZE + VOTE_SIZE * count as usize).1;
    }
    is_zero(rest)
}

/// Adds the votes of so many voters in all panels. The caller owes that the record has none yet and room for them, and
/// that the bytes have the bags.
pub(super) fn fill_bags(votes: &mut Rdv, tables: &Tables, came: u32, bytes: &[u8])
    requires few { came ≤ most_voters }
    requires none { votes.old.bags ≡ replicate (length tables.now.panels) [] }
    requires room { (panel : ℕ) → panel < length tables.now.panels → came * places_at tables.now panel ≤ room_at votes.old panel }
    requires bytes { most_offices * (4 + 10 * came) ≤ length bytes.now }
    requires bags { IsSome (bags_in (lines_by_panel tables.now) came bytes.now) }
    ensures { votes.new ≡ record votes.old { bags = unwrap_or (bags_in (lines_by_panel tables.now) came bytes.now) [] } }
{
    let mut rest = bytes;
    for panel in 0..tables.panels() {
        let count = came * tables.places(panel);
        fill_bag(votes, tables, panel, count, rest);
        rest = rest.split_at(BAG_HEAD_SIZE + VOTE_SIZE * count as usize).1;
    }
}

/// Adds the votes of a panel. They come in the order of choices, so each is put at the end of its bag.
fn fill_bag(votes: &mut Rdv, tables: &Tables, panel: u32, count: u32, bytes: &[u8])
    requires panel { panel < length tables.now.panels }
    requires panels { length votes.old.bags ≡ length tables.now.panels }
    requires none { bag_at votes.old.bags panel ≡ [] }
    requires room { count ≤ room_at votes.old panel }
    requires bytes { bag_head_size + vote_size * count ≤ length bytes.now }
    requires bag { IsSome (bag_in (line_of tables.now panel) count bytes.now) }
    ensures { votes.new ≡ record votes.old { bags = slice_set votes.old.bags panel (unwrap_or (bag_in (line_of tables.now panel) count bytes.now) []) } }
{
    let mut rest = bytes.split_at(BAG_HEAD_SIZE).1;
    for _ in 0..count {
        votes.add(tables, panel, vote_at(rest).unwrap());
        rest = rest.split_at(VOTE_SIZE).1;
    }
}
