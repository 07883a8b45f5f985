//! The offices: their codes, how many digits their candidates' numbers have, and how each is decided.
ghost use Rattle.std.specs.Prelude.{◌≡◌, ◌≤◌, IfSome};
ghost use Rattle.election_tables.specs.Offices.{allows, code_digits, code_proportional, kinds_allow, may_have_places, most_seats, places_by, row_of};

use crate::limits::PROPORTIONAL_SEATS;

/// How an office is decided: in proportion to the votes of the parties, by the absolute majority (with a second
/// turn), or by the simple majority.
#[derive(Clone, Copy, Debug, PartialEq, Eq)]
pub enum Kind {
    Proportional,
    Absolute,
    Simple,
}

/// An office: its code, the digits of its candidates' numbers, how it is decided, and how many seats it has.
#[derive(Clone, Copy, Debug, PartialEq, Eq)]
pub struct Office {
    pub code: u8,
    pub digits: u8,
    pub kind: Kind,
    pub seats: u32,
}

/// The kinds by which an office may be decided.
#[derive(Clone, Copy)]
pub(crate) enum Kinds {
    Proportional,
    SimpleMajority,
    EitherMajority,
}

/// No office has a greater code.
pub const GREATEST_CODE: u8 = 13;

/// The row of an office in the table of codes.
#[derive(Clone, Copy)]
pub(crate) struct OfficeRow {
    pub code: u64,
    pub digits: u8,
    pub kinds: Kinds,
    pub most_seats: u64,
}

/// The table of codes (docs/FORMATS.md, "Offices"): the row of a code, `None` exactly where no office has it.
#[tactic(auto, unfolding(crate::specs::Offices::row_of))]
fn row_of(code: u64) -> Option<OfficeRow>
    ensures row { result ≡ row_of code }
    ensures digits { IfSome result (λ row. (2 ≤ row.digits) × (row.digits ≤ 5)) }
{
    let (digits, kinds, most_seats) = match code {
        1 => (2, Kinds::EitherMajority, 1),
        3 => (2, Kinds::EitherMajority, 1),
        5 => (3, Kinds::SimpleMajority, 2),
        6 => (4, Kinds::Proportional, PROPORTIONAL_SEATS),
        7 => (5, Kinds::Proportional, PROPORTIONAL_SEATS),
        8 => (5, Kinds::Proportional, PROPORTIONAL_SEATS),
        11 => (2, Kinds::EitherMajority, 1),
        13 => (5, Kinds::Proportional, PROPORTIONAL_SEATS),
        _ => return None,
    };
    Some(OfficeRow {
        code,
        digits,
        kinds,
        most_seats,
    })
}

impl Kinds {
    fn allow(self, kind: Kind) -> bool
        ensures { result ≡ kinds_allow self kind }
    {
        match (self, kind) {
            (Kinds::Proportional, Kind::Proportional) => true,
            (Kinds::SimpleMajority, Kind::Simple) => true,
            (Kinds::EitherMajority, Kind::Absolute | Kind::Simple) => true,
            _ => false,
        }
    }
}

/// The digits of an office's numbers; `None` exactly where no office has the code (docs/FORMATS.md, "Election tables").
pub fn code_digits(code: u8) -> Option<u8>
    ensures { result ≡ code_digits code }
{
    digits_of_code(u64::from(code))
}

/// Whether an office is decided in proportion: deputies and councillors are (Código Eleitoral, art. 84).
pub fn code_proportional(code: u8) -> bool
    ensures { result ≡ code_proportional code }
{
    allows(u64::from(code), Kind::Proportional)
}

/// Whether tables may give a voter so many votes for an office: one, or two for that of code 5 (docs/FORMATS.md, "Offices").
pub fn may_have_places(code: u8, places: u32) -> bool
    ensures { result ≡ may_have_places code places }
{
    let most = places_by(code, most_seats(u64::from(code)));
    1 <= places && u64::from(places) <= most
}

/// The votes that each voter has for an office of so many seats.
pub(crate) fn places_by(code: u8, seats: u64) -> u64
    ensures { result ≡ places_by code seats }
{
    if code_proportional(code) { 1 } else { seats }
}

/// `code_digits` of a number that a document has.
pub(crate) fn digits_of_code(code: u64) -> Option<u8>
    ensures digits { result ≡ code_digits code }
    ensures few { IfSome result (λ digits. (2 ≤ digits) × (digits ≤ 5)) }
{
    match row_of(code) {
        Some(row) => Some(row.digits),
        None => None,
    }
}

/// Whether an office may be decided so. A code that no office has may not.
pub(crate) fn allows(code: u64, kind: Kind) -> bool
    ensures { result ≡ allows code kind }
{
    match row_of(code) {
        Some(row) => row.kinds.allow(kind),
        None => false,
    }
}

/// The most seats that an office may have; none for a code that no office has.
pub(crate) fn most_seats(code: u64) -> u64
    ensures { result ≡ most_seats code }
{
    match row_of(code) {
        Some(row) => row.most_seats,
        None => 0,
    }
}
