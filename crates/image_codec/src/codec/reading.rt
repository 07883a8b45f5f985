//! Whether some bytes are the body of a slot, of either version, and what stands in it.
ghost use Rattle.std.specs.Prelude.{◌≡◌, ◌*◌, ◌<◌, ◌≤◌, ℕ, [], length, option_map, replicate, unwrap_or, IfSome, IsSome, IsNone};
ghost use Rattle.std.specs.Option.{is_some};
ghost use Rattle.election_tables.specs.Limits.{most_voters};
ghost use Rattle.election_tables.specs.TablesData.{IsTables, places_at};
ghost use Rattle.vote_kinds.specs.Ballot.{lines_by_panel};
ghost use Rattle.vote_record.specs.RdvData.{room_at};
ghost use Rattle.image_codec.specs.Decoded.{bags_of, decoded, rank_in};
ghost use Rattle.image_codec.specs.Encoding.{IsRankOf, IsNoEncoding};
ghost use Rattle.image_codec.specs.Head.{head_of};
ghost use Rattle.image_codec.specs.Layout.{body_size};

use super::counters::{fill_counters, has_counters};
use super::head::{Head, head_in};
use super::layout::{BODY_SIZE, FIRST_VERSION, HEAD_SIZE, VERSION};
use super::votes::{fill_bags, has_bags};
use crate::state::rank_with;
use election_tables::Tables;
use vote_record::Rdv;

/// The rank of the state whose encoding some bytes are, of either version, of a poll of these tables and so many voters, of
/// whom there are at most 600; `None` exactly where no state has that encoding. Bytes of any length may be given. It takes no
/// memory.
pub fn rank_of(tables: &Tables, voters: u32, bytes: &[u8]) -> Option<u32>
    requires { voters ≤ most_voters }
    ensures value { result ≡ rank_in tables.now voters bytes.now }
    ensures found { IfSome result (IsRankOf tables.now voters bytes.now) }
    ensures none { IsNone result → IsNoEncoding tables.now voters bytes.now }
{
    let head = checked(tables, voters, bytes)?;
    Some(rank_with(head.phase, head.came))
}

/// What stands in the head, if the bytes are an encoding of a state of a poll of these tables and so many voters.
pub(crate) fn checked(tables: &Tables, voters: u32, bytes: &[u8]) -> Option<Head>
    requires { voters ≤ most_voters }
    ensures head { result ≡ option_map head_of (decoded tables.now voters bytes.now) }
    ensures few { IfSome result (λ h. h.came ≤ voters) }
    ensures body { IsSome result → length bytes.now ≡ body_size }
    ensures tables { IsTables tables.now }
{
    let panels = tables.panels();
    if bytes.len() != BODY_SIZE {
        return None;
    }
    let head = head_in(voters, panels, bytes)?;
    if has_votes(tables, head.came, bytes) {
        Some(head)
    } else {
        None
    }
}

/// Whether a body has all votes of so many voters, as its version writes them.
fn has_votes(tables: &Tables, came: u32, bytes: &[u8]) -> bool
    requires few { came ≤ most_voters }
    requires whole { length bytes.now ≡ body_size }
    ensures { result ≡ is_some (bags_of (lines_by_panel tables.now) came bytes.now) }
{
    if bytes[0] == VERSION {
        has_counters(tables, came, bytes)
    } else if bytes[0] == FIRST_VERSION {
        has_bags(tables, came, bytes.split_at(HEAD_SIZE).1)
    } else {
        false
    }
}

/// Adds the votes of a body, which are those of so many voters. The caller owes that the record has none yet and room for
/// them, and that the body has them.
pub(crate) fn fill_votes(votes: &mut Rdv, tables: &Tables, came: u32, bytes: &[u8])
    requires few { came ≤ most_voters }
    requires none { votes.old.bags ≡ replicate (length tables.now.panels) [] }
    requires room { (panel : ℕ) → panel < length tables.now.panels → came * places_at tables.now panel ≤ room_at votes.old panel }
    requires whole { length bytes.now ≡ body_size }
    requires bags { IsSome (bags_of (lines_by_panel tables.now) came bytes.now) }
    ensures { votes.new ≡ record votes.old { bags = unwrap_or (bags_of (lines_by_panel tables.now) came bytes.now) [] } }
{
    if bytes[0] == VERSION {
        fill_counters(votes, tables, came, bytes);
    } else {
        fill_bags(votes, tables, came, bytes.split_at(HEAD_SIZE).1);
    }
}
