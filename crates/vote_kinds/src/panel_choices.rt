//! The choices of a panel, by their places in the order of choices.
ghost use Rattle.std.specs.Prelude.{◌≡◌, ◌+◌, ◌<◌, ◌≤◌, length, slice_get, Some, if◌then◌else◌};
ghost use Rattle.election_tables.specs.Limits.{most_candidates, most_parties};
ghost use Rattle.election_tables.specs.TablesData.{IsTables};
ghost use Rattle.vote_kinds.specs.Ballot.{line_of, choices_of};

use crate::ballot::is_proportional;
use crate::choice::Choice;
use election_tables::Tables;

/// Blank and null, which may be chosen in every panel.
const BLANK_AND_NULL: u32 = 2;

/// How many choices a panel has. The caller owes that the tables have it, here and below.
pub fn choice_count(tables: &Tables, panel: u32) -> u32
    requires { panel < length tables.now.panels }
    ensures count { result ≡ length (choices_of (line_of tables.now panel)) }
    ensures few { result ≤ most_candidates + most_parties + 2 }
    ensures tables { IsTables tables.now }
{
    tables.candidate_count(panel) + chosen_parties(tables, panel) + BLANK_AND_NULL
}

/// The choice that stands in a place among those of a panel. The caller owes that the panel has so many.
pub fn choice_at(tables: &Tables, panel: u32, place: u32) -> Choice
    requires panel { panel < length tables.now.panels }
    requires place { place < length (choices_of (line_of tables.now panel)) }
    ensures { slice_get (choices_of (line_of tables.now panel)) place ≡ Some result }
{
    let candidates = tables.candidate_count(panel);
    let parties = chosen_parties(tables, panel);
    if place < candidates {
        Choice::Nominal(tables.candidate(panel, place).number)
    } else if place < candidates + parties {
        Choice::Party(tables.party(place - candidates))
    } else if place == candidates + parties {
        Choice::Blank
    } else {
        Choice::Null
    }
}

/// How many parties may be chosen in a panel: all of them where its office is decided in proportion.
pub fn chosen_parties(tables: &Tables, panel: u32) -> u32
    requires { panel < length tables.now.panels }
    ensures count { result ≡ (if (line_of tables.now panel).proportional then length tables.now.parties else 0) }
    ensures few { result ≤ most_parties }
    ensures tables { IsTables tables.now }
{
    let parties = tables.party_count();
    if is_proportional(tables.office(panel).kind) {
        parties
    } else {
        0
    }
}
