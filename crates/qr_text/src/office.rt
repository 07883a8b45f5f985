//! The fields of an office, section by section, and the offices in a row.
ghost use Rattle.std.specs.Prelude.{◌≡◌, ◌+◌, ◌<◌, ◌≤◌, ◌==◌, ◌∷◌, ◌++◌, [], false, true, length, IfOk, MatchResult, Err, Ok};
ghost use Rattle.std.specs.List.{list_any};
ghost use Rattle.election_tables.specs.Offices.{code_proportional};
ghost use Rattle.poll_report.specs.Report.{greatest_count, may_have_code};
ghost use Rattle.qr_text.specs.Fronts.{MatchRead, after_office, behind, goes, placing, said_of, voting, with_parties, with_sums};
ghost use Rattle.qr_text.specs.Said.{codes_in};
ghost use Rattle.qr_text.specs.Sections.{legend_reading, start_reading, sums_reading};
ghost use Rattle.qr_text.specs.declared.said.Said.{Said};

use crate::fault::{FieldError, FieldFault};
use crate::head::{Head, Voters};
use crate::reader::{Reader, read};
use crate::said::{SaidOffice, SaidOffices, SaidParties};
use crate::table::TABLE;
use crate::votes::{read_parties, read_votes};
use election_tables::{MOST_OFFICES, code_digits, code_proportional};
use poll_report::Counts;
use std::alloc::Global;

/// The sums of an office.
#[derive(Clone, Copy)]
pub(crate) struct Sums {
    pub able: u32,
    pub nominal: u32,
    /// 0 in a majority office, whose text has no such sum.
    pub legend: u32,
    pub blank: u32,
    pub null_votes: u32,
    pub total: u32,
}

/// The code of an office that stands behind others, with its kind, or the first fault in them.
#[tactic(auto, unfolding(crate::specs::Sections::held, crate::specs::Sections::start_reading))]
fn read_start(reader: &mut Reader<'_>, before: &[SaidOffice]) -> Result<u8, FieldFault>
    ensures exact { MatchResult result (λ v. start_reading before.now reader.old ≡ Ok (v, reader.new)) (λ e. start_reading before.now reader.old ≡ Err e) }
    ensures two { IfOk result (λ v. length reader.old.left ≡ length reader.new.left + 2) }
{
    let field = reader.place();
    let code = read!(reader, office) as u8;
    if !may_have_code(before, code) {
        return Err(FieldFault::Field(field));
    }
    let field = reader.place();
    let kind = read!(reader, kind);
    if kind == u32::from(code_proportional(code)) {
        Ok(code)
    } else {
        Err(FieldFault::Field(field))
    }
}

/// Whether an office with this code may stand behind others.
fn may_have_code(before: &[SaidOffice], code: u8) -> bool
    ensures { result ≡ may_have_code (codes_in before.now) code }
{
    before.len() < MOST_OFFICES && (code_digits(code).is_some() && !was_used(before, code))
}

/// Whether one of these offices has the code.
fn was_used(before: &[SaidOffice], code: u8) -> bool
    ensures { result ≡ list_any (λ c. c == code) (codes_in before.now) }
{
    before
        .iter()
        .map(|office| office.code)
        .any(|used| used == code)
}

/// The party votes of an office, which only a proportional one says.
#[tactic(auto, unfolding(crate::specs::Sections::legend_reading))]
fn read_legend(reader: &mut Reader<'_>, proportional: bool, legend: u64) -> Result<u32, FieldFault>
    ensures exact { MatchResult result
        (λ v. legend_reading proportional legend reader.old ≡ Ok (v, reader.new))
        (λ e. legend_reading proportional legend reader.old ≡ Err e) }
    ensures few { IfOk result (λ v. v ≤ greatest_count) }
    ensures fewer { IfOk result (λ v. length reader.new.left ≤ length reader.old.left) }
{
    if proportional {
        Ok(read!(reader, legend, legend))
    } else {
        Ok(0)
    }
}

/// The sums of an office where each voter has so many votes, or the first fault in them.
#[tactic(auto, unfolding(crate::specs::Sections::agreed, crate::specs::Sections::sums_reading))]
fn read_sums(
    reader: &mut Reader<'_>,
    proportional: bool,
    voters: &Voters,
    places: u32,
    nominal: u64,
    legend: u64,
) -> Result<Sums, FieldFault>
    ensures exact { MatchResult result
        (λ v. sums_reading proportional voters.now places nominal legend reader.old ≡ Ok (v, reader.new))
        (λ e. sums_reading proportional voters.now places nominal legend reader.old ≡ Err e) }
    ensures fewer { IfOk result (λ v. length reader.new.left ≤ length reader.old.left) }
{
    let able = read!(reader, office_able, u64::from(voters.able));
    let nominal = read!(reader, nominal, nominal);
    let legend = read_legend(reader, proportional, legend)?;
    let blank = read!(reader, blank);
    let null_votes = read!(reader, null_votes);
    let field = reader.place();
    let sum = u64::from(nominal) + u64::from(legend) + u64::from(blank) + u64::from(null_votes);
    let total = read!(reader, total, sum);
    let sum = u64::from(voters.came) * u64::from(places);
    let said = u64::from(total);
    if sum != said {
        return Err(FieldFault::Sum { field, sum, said });
    }
    Ok(Sums {
        able,
        nominal,
        legend,
        blank,
        null_votes,
        total,
    })
}

/// How many votes each voter has in a majority office: one where nothing is said of it.
fn read_places(reader: &mut Reader<'_>, code: u8) -> u32
    ensures exact { (q : Said) → goes (placing q code) reader.old ≡ goes (voting q code result []) reader.new }
    ensures fewer { length reader.new.left ≤ length reader.old.left }
{
    reader.try_places(code).unwrap_or(1)
}

/// The places and the votes of a majority office and its sums, or the first fault in them.
fn read_majority(
    alloc: Global,
    reader: &mut Reader<'_>,
    voters: &Voters,
    code: u8,
) -> Result<SaidOffice, FieldError>
    requires { code_proportional code ≡ false }
    ensures exact { MatchRead result
        (λ o. (q : Said) → voters.now.able ≡ q.able → voters.now.came ≡ q.came → goes (placing q code) reader.old ≡ goes (after_office q o) reader.new)
        (λ f. (q : Said) → voters.now.able ≡ q.able → voters.now.came ≡ q.came → goes (placing q code) reader.old ≡ Err f) }
    ensures fewer { IfOk result (λ o. length reader.new.left ≤ length reader.old.left) }
{
    let places = read_places(reader, code);
    let tally = read_votes(alloc, reader, code, None)?;
    let sums = read_sums(reader, false, voters, places, tally.votes, 0)?;
    Ok(office_of(code, places, tally.counts, SaidParties::new(alloc), &sums))
}

/// The parties of a proportional office and its sums, or the first fault in them.
fn read_proportional(
    alloc: Global,
    reader: &mut Reader<'_>,
    voters: &Voters,
    code: u8,
) -> Result<SaidOffice, FieldError>
    requires { code_proportional code ≡ true }
    ensures exact { MatchRead result
        (λ o. (q : Said) → voters.now.able ≡ q.able → voters.now.came ≡ q.came → goes (with_parties q code []) reader.old ≡ goes (after_office q o) reader.new)
        (λ f. (q : Said) → voters.now.able ≡ q.able → voters.now.came ≡ q.came → goes (with_parties q code []) reader.old ≡ Err f) }
    ensures fewer { IfOk result (λ o. length reader.new.left ≤ length reader.old.left) }
{
    let parties = read_parties(alloc, reader, code)?;
    let sums = read_sums(reader, true, voters, 1, parties.nominal, parties.legend)?;
    Ok(office_of(code, 1, Counts::new(alloc), parties.items, &sums))
}

/// An office with these places, votes and sums.
fn office_of(
    code: u8,
    places: u32,
    candidates: Counts,
    parties: SaidParties,
    sums: &Sums,
) -> SaidOffice
    ensures { result ≡ with_sums code places candidates parties sums.now }
{
    SaidOffice {
        code,
        places,
        candidates,
        parties,
        able: sums.able,
        nominal: sums.nominal,
        legend: sums.legend,
        blank: sums.blank,
        null_votes: sums.null_votes,
        total: sums.total,
    }
}

/// An office behind others, or the first fault in it. The caller owes that it is the first or that a field is left.
fn read_office(
    alloc: Global,
    reader: &mut Reader<'_>,
    head: &Head,
    before: &SaidOffices,
) -> Result<SaidOffice, FieldError>
    requires { reader.old.left ≡ [] → before.now ≡ [] }
    ensures exact { MatchRead result
        (λ o. goes (behind head.now before.now) reader.old ≡ goes (behind head.now (before.now ++ o ∷ [])) reader.new)
        (λ f. goes (behind head.now before.now) reader.old ≡ Err f) }
    ensures fewer { IfOk result (λ o. length reader.new.left < length reader.old.left) }
{
    let code = read_start(reader, before.as_slice())?;
    if code_proportional(code) {
        read_proportional(alloc, reader, &head.voters, code)
    } else {
        read_majority(alloc, reader, &head.voters, code)
    }
}

/// At least one office, and as many as stand until the text ends, or the first fault in them.
pub(crate) fn read_offices(
    alloc: Global,
    reader: &mut Reader<'_>,
    head: &Head,
) -> Result<SaidOffices, FieldError>
    ensures exact { MatchRead result
        (λ os. goes (behind head.now []) reader.old ≡ Ok (said_of head.now os))
        (λ f. goes (behind head.now []) reader.old ≡ Err f) }
{
    let mut offices = SaidOffices::new(alloc);
    loop {
        let office = read_office(alloc, reader, head, &offices)?;
        offices.push(office)?;
        if reader.has_ended() {
            return Ok(offices);
        }
    }
}
