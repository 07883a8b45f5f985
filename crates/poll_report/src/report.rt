//! A poll report: what was counted in a section.
ghost use Rattle.std.specs.Prelude.{◌≡◌, ◌≤◌};
ghost use Rattle.poll_report.specs.Report.{digits_in};

use election_tables::code_digits;
use items::Items;

/// The greatest number of voters or votes that a report can tell.
pub const GREATEST_COUNT: u64 = 9_999;

/// The digits of the numbers of an office with this code, 0 where no office has it.
#[tactic(auto, using(crate::proofs::Digits::digits_few))]
pub fn digits_in(code: u8) -> u8
    ensures digits { result ≡ digits_in code }
    ensures few { result ≤ 5 }
{
    code_digits(code).unwrap_or(0)
}

/// The number of a candidate or of a party, and its votes.
#[derive(Clone, Copy, Debug, PartialEq, Eq)]
pub struct Count {
    pub number: u32,
    pub votes: u32,
}

/// Numbers with their votes, in a row.
pub type Counts = Items<Count>;

/// What was counted for an office: the votes of each candidate and the party votes of each party that has one, rising by
/// number, and the blank and the null votes.
#[derive(Debug, Drop)]
pub struct OfficeCount {
    pub code: u8,
    /// How many votes each voter has.
    pub places: u32,
    pub nominal: Counts,
    pub parties: Counts,
    pub blank: u32,
    pub null_votes: u32,
}

/// Offices in a row.
pub type OfficeCounts = Items<OfficeCount>;

/// The report of a section: of which election and section it is, how many voters it has and how many came, the moments
/// YYYYMMDDHHMMSS of opening and closing, and the counts of each office in the order of the ballot.
#[derive(Debug, Drop)]
pub struct Report {
    pub process: u32,
    pub date: u32,
    pub turn: u8,
    pub zone: u32,
    pub section: u32,
    pub able: u32,
    pub came: u32,
    pub opened: u64,
    pub closed: u64,
    pub offices: OfficeCounts,
}
