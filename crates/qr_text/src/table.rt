//! The one table of the report's fields (docs/FORMATS.md, "Report text"): keys and forms, which the code writes and reads by, and what
//! is tested, which the definitions cite from the same constant (`specs/Table.antt`). The field of a candidate has the number as its
//! key, and the order of the fields is that of `specs/Said.antt`.
use election_tables::{GREATEST_PROCESS, GREATEST_SECTION};
use poll_report::GREATEST_COUNT;

/// How the value of a field is written, and which numbers it may have.
#[derive(Clone, Copy, Debug, PartialEq, Eq)]
pub enum Form {
    /// The word VOTA. Its number is 0.
    Vota,
    /// A decimal from `low` to `high`.
    Between { low: u64, high: u64 },
    /// A valid date YYYYMMDD, in 8 digits.
    Date,
    /// A valid time of the day HHMMSS, in 6 digits.
    Time,
}

/// What is tested at a field, besides its form.
#[derive(Clone, Copy, Debug, PartialEq, Eq)]
pub enum Tested {
    Nothing,
    /// Closing isn't below opening.
    Order,
    /// Those who came and those who didn't are the voters of the section.
    Voters,
    /// The candidates of the party and its party votes are its total.
    Party,
    /// The voters of the office are those of the section.
    Able,
    /// The nominal votes are those of all candidates of the office.
    Nominal,
    /// The party votes are those of all parties of the office.
    Legend,
    /// All votes of the office are its total, and those who came have so many.
    Total,
}

/// A row of the table.
#[derive(Clone, Copy, Debug, PartialEq, Eq)]
pub struct Row {
    pub key: [u8; 4],
    pub form: Form,
    pub tested: Tested,
}

/// The fields of a report by name, in the order in which they stand.
#[derive(Drop)]
pub struct Table {
    pub orig: Row,
    pub process: Row,
    pub date: Row,
    pub turn: Row,
    pub zone: Row,
    pub section: Row,
    pub able: Row,
    pub came: Row,
    pub missed: Row,
    pub open_date: Row,
    pub open_time: Row,
    pub close_date: Row,
    pub close_time: Row,
    pub office: Row,
    pub kind: Row,
    /// Only where a voter has more than one vote in the office.
    pub places: Row,
    pub party: Row,
    /// The votes of a candidate, whose field has the candidate's number as its key.
    pub votes: Form,
    pub party_legend: Row,
    pub party_total: Row,
    pub office_able: Row,
    pub nominal: Row,
    pub legend: Row,
    pub blank: Row,
    pub null_votes: Row,
    pub total: Row,
}

/// The number of an election.
const PROCESS: Form = Form::Between {
    low: 1,
    high: GREATEST_PROCESS,
};

/// The first round or the second.
const TURN: Form = Form::Between { low: 1, high: 2 };

/// The number of a zone, or of a section.
const PLACE: Form = Form::Between {
    low: 1,
    high: GREATEST_SECTION,
};

/// A number of voters or of votes.
const COUNT: Form = Form::Between {
    low: 0,
    high: GREATEST_COUNT,
};

/// The code of an office. Which codes there are says `election_tables::code_digits`.
const CODE: Form = Form::Between { low: 1, high: 99 };

/// 0 for a majority office, 1 for a proportional one.
const KIND: Form = Form::Between { low: 0, high: 1 };

/// How many votes each voter has, where it isn't one.
const PLACES: Form = Form::Between { low: 2, high: 2 };

/// The number of a party.
const PARTY: Form = Form::Between { low: 10, high: 99 };

/// At least one vote.
const SOME_VOTES: Form = Form::Between {
    low: 1,
    high: GREATEST_COUNT,
};

/// A row of the table, in one line.
macro_rules! row {
    ($key:literal, $form:expr, $tested:ident) => {
        Row { key: *$key, form: $form, tested: Tested::$tested }
    };
}

/// The one table of the fields of a report.
pub const TABLE: Table = Table {
    orig: row!(b"ORIG", Form::Vota, Nothing),
    process: row!(b"PROC", PROCESS, Nothing),
    date: row!(b"DTPL", Form::Date, Nothing),
    turn: row!(b"TURN", TURN, Nothing),
    zone: row!(b"ZONA", PLACE, Nothing),
    section: row!(b"SECA", PLACE, Nothing),
    able: row!(b"APTO", COUNT, Nothing),
    came: row!(b"COMP", COUNT, Nothing),
    missed: row!(b"FALT", COUNT, Voters),
    open_date: row!(b"DTAB", Form::Date, Nothing),
    open_time: row!(b"HRAB", Form::Time, Nothing),
    close_date: row!(b"DTFC", Form::Date, Nothing),
    close_time: row!(b"HRFC", Form::Time, Order),
    office: row!(b"CARG", CODE, Nothing),
    kind: row!(b"TIPO", KIND, Nothing),
    places: row!(b"LUGA", PLACES, Nothing),
    party: row!(b"PART", PARTY, Nothing),
    votes: SOME_VOTES,
    party_legend: row!(b"LEGP", COUNT, Nothing),
    party_total: row!(b"TOTP", SOME_VOTES, Party),
    office_able: row!(b"APTA", COUNT, Able),
    nominal: row!(b"NOMI", COUNT, Nominal),
    legend: row!(b"LEGC", COUNT, Legend),
    blank: row!(b"BRAN", COUNT, Nothing),
    null_votes: row!(b"NULO", COUNT, Nothing),
    total: row!(b"TOTC", COUNT, Total),
};
