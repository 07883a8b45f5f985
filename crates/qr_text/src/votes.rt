//! The votes of an office: candidates in a row, and parties in a row.
ghost use Rattle.std.specs.Prelude.{◌≡◌, ◌+◌, ◌<◌, ◌≤◌, ◌^◌, [], ◌∷◌, ◌++◌, List, length, IfOk, MatchResult, Err, Ok};
ghost use Rattle.std.specs.List.{sum_by};
ghost use Rattle.poll_report.specs.Report.{digits_in, greatest_count, votes_of};
ghost use Rattle.qr_text.specs.Fronts.{MatchRead, NoParty, goes, in_party, with_parties};
ghost use Rattle.qr_text.specs.Sections.{party_end_reading};
ghost use Rattle.qr_text.specs.Votes.{votes_reading};
ghost use Rattle.qr_text.specs.declared.said.Said.{Said};
ghost use Rattle.qr_text.specs.declared.said.SaidParty.{SaidParty};

use crate::fault::{FieldError, FieldFault};
use crate::reader::{Reader, read};
use crate::said::{SaidParties, SaidParty};
use crate::table::TABLE;
use poll_report::{Counts, digits_in};
use std::alloc::Global;
use urna_base::Memory;

/// For how many candidates in a row there is room at once, mostly enough for those of one party in a section. A longer row grows.
const USUAL_COUNTS: u32 = 16;

/// Candidates in a row, and all their votes.
#[derive(Drop)]
pub(crate) struct Tally {
    pub counts: Counts,
    pub votes: u64,
}

/// As many candidates as stand in a row, rising; of one party, if it is named.
pub(crate) fn read_votes(
    alloc: Global,
    reader: &mut Reader<'_>,
    code: u8,
    party: Option<u32>,
) -> Result<Tally, Memory>
    ensures exact { IfOk result (λ t. votes_reading (digits_in code) party 0 [] reader.old ≡ (t.counts, reader.new)) }
    ensures votes { IfOk result (λ t. t.votes ≡ votes_of t.counts) }
    ensures few { IfOk result (λ t. t.votes < 2 ^ 46) }
    ensures fewer { IfOk result (λ t. length reader.new.left ≤ length reader.old.left) }
{
    // From here on it is known that the fields that are left are fewer than 2^32.
    let _place = reader.place();
    let digits = digits_in(code);
    let mut counts = Counts::with_room(alloc, USUAL_COUNTS)?;
    let mut votes = 0;
    let mut last = 0;
    while let Some(count) = reader.try_vote(digits, party, last) {
        last = count.number;
        votes += u64::from(count.votes);
        counts.push(count)?;
    }
    Ok(Tally { counts, votes })
}

/// What stands behind the candidates of a party, who have these votes together: its party votes and its total.
#[tactic(auto, unfolding(crate::specs::Sections::party_end_reading))]
fn read_party_end(
    reader: &mut Reader<'_>,
    number: u32,
    candidates: Counts,
    votes: u64,
) -> Result<SaidParty, FieldFault>
    requires same { votes ≡ votes_of candidates }
    requires few { votes < 2 ^ 46 }
    ensures exact { MatchResult result
        (λ p. party_end_reading number candidates reader.old ≡ Ok (p, reader.new))
        (λ e. party_end_reading number candidates reader.old ≡ Err e) }
    ensures number { IfOk result (λ p. p.number ≡ number) }
    ensures total { IfOk result (λ p. p.total ≡ votes_of p.candidates + p.legend) }
    ensures few { IfOk result (λ p. p.total ≤ greatest_count) }
    ensures two { IfOk result (λ p. length reader.old.left ≡ length reader.new.left + 2) }
{
    let legend = read!(reader, party_legend);
    let total = read!(reader, party_total, votes + u64::from(legend));
    Ok(SaidParty {
        number,
        candidates,
        legend,
        total,
    })
}

/// A party behind its number, or the first fault in it.
fn read_party(
    alloc: Global,
    reader: &mut Reader<'_>,
    code: u8,
    number: u32,
) -> Result<SaidParty, FieldError>
    ensures exact { MatchRead result
        (λ p. (q : Said) (ps : List SaidParty) → goes (in_party q code ps number []) reader.old ≡ goes (with_parties q code (ps ++ p ∷ [])) reader.new)
        (λ f. (q : Said) (ps : List SaidParty) → goes (in_party q code ps number []) reader.old ≡ Err f) }
    ensures number { IfOk result (λ p. p.number ≡ number) }
    ensures total { IfOk result (λ p. p.total ≡ votes_of p.candidates + p.legend) }
    ensures few { IfOk result (λ p. p.total ≤ greatest_count) }
    ensures fewer { IfOk result (λ p. length reader.new.left < length reader.old.left) }
{
    let tally = read_votes(alloc, reader, code, Some(number))?;
    let party = read_party_end(reader, number, tally.counts, tally.votes)?;
    Ok(party)
}

/// Parties in a row, and all votes of their candidates and all party votes.
#[derive(Drop)]
pub(crate) struct Parties {
    pub items: SaidParties,
    pub nominal: u64,
    pub legend: u64,
}

/// As many parties as stand in a row, rising, or the first fault in them.
pub(crate) fn read_parties(
    alloc: Global,
    reader: &mut Reader<'_>,
    code: u8,
) -> Result<Parties, FieldError>
    ensures exact { MatchRead result
        (λ r. (q : Said) → goes (with_parties q code []) reader.old ≡ goes (with_parties q code r.items) reader.new)
        (λ f. (q : Said) → goes (with_parties q code []) reader.old ≡ Err f) }
    ensures no_more { IfOk result (λ r. (q : Said) → NoParty q code r.items reader.new) }
    ensures nominal { IfOk result (λ r. r.nominal ≡ sum_by (λ p. votes_of p.candidates) r.items) }
    ensures legend { IfOk result (λ r. r.legend ≡ sum_by (λ p. p.legend) r.items) }
    ensures fewer { IfOk result (λ r. length reader.new.left ≤ length reader.old.left) }
{
    // From here on it is known that the fields that are left are fewer than 2^32.
    let _place = reader.place();
    let mut items = SaidParties::new(alloc);
    let mut nominal = 0;
    let mut legend = 0;
    let mut last = 0;
    while let Some(number) = reader.try_party(last) {
        let party = read_party(alloc, reader, code, number)?;
        last = number;
        nominal += u64::from(party.total - party.legend);
        legend += u64::from(party.legend);
        items.push(party)?;
    }
    Ok(Parties {
        items,
        nominal,
        legend,
    })
}
