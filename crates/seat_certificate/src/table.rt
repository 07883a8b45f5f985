//! The one table of the lines of a certificate's text (docs/FORMATS.md, "Certificate"): the word in front of each number, and which numbers
//! may stand there. The code writes and reads by it, and the definitions cite its words, its marks and the bounds of a party's number
//! (`specs/Text.antt`, `specs/Reading.antt`).

/// A word and the number behind its space, a decimal from `low` to `high`.
#[derive(Clone, Copy, Debug, PartialEq, Eq)]
pub struct Row<const N: usize> {
    pub word: [u8; N],
    pub low: u64,
    pub high: u64,
}

/// A number within an average, and the mark in front of it.
#[derive(Clone, Copy, Debug, PartialEq, Eq)]
pub struct Marked {
    pub mark: u8,
    pub low: u64,
    pub high: u64,
}

/// What stands in the lines, by name and in order.
#[derive(Drop)]
pub struct Table {
    /// The whole first line.
    pub version: [u8; 7],
    pub office: Row<5>,
    pub quotient: Row<9>,
    /// A line of the first phase.
    pub party: Row<7>,
    pub party_quotient: Row<2>,
    pub able: Row<5>,
    pub seats: Row<5>,
    /// A round: the word in front of its number, which is its place, and what stands in front of its averages.
    pub round: [u8; 6],
    pub phase: Row<4>,
    pub winner: Row<5>,
    pub average_party: Marked,
    pub average_votes: Marked,
    pub average_divisor: Marked,
    pub vacant: Row<6>,
    /// The whole last line.
    pub end: [u8; 3],
}

/// The greatest number of 18 digits, which is the longest decimal that is read.
const DECIMAL: u64 = 999_999_999_999_999_999;

/// The greatest number of 32 bits.
const NARROW: u64 = 4_294_967_295;

/// The most lines of the first phase.
pub const MOST_FIRST_LINES: u32 = 40;

/// The most rounds.
pub const MOST_ROUNDS: u32 = 200;

/// A row, or a marked number, in one line.
macro_rules! row {
    ($word:literal, $low:expr, $high:expr) => {
        Row { word: *$word, low: $low, high: $high }
    };
}

macro_rules! marked {
    ($mark:literal, $low:expr, $high:expr) => {
        Marked { mark: $mark, low: $low, high: $high }
    };
}

/// The one table of the lines of a certificate. Which of the codes are offices' says `election_tables::code_proportional`.
pub const TABLE: Table = Table {
    version: *b"CERT U1",
    office: row!(b"CARGO", 0, 255),
    quotient: row!(b"QUOCIENTE", 0, DECIMAL),
    party: row!(b"PARTIDO", 10, 99),
    party_quotient: row!(b"QP", 0, DECIMAL),
    able: row!(b"APTOS", 0, NARROW),
    seats: row!(b"VAGAS", 0, NARROW),
    round: *b"RODADA",
    phase: row!(b"FASE", 2, 3),
    winner: row!(b"VENCE", 10, 99),
    average_party: marked!(b' ', 10, 99),
    average_votes: marked!(b':', 0, DECIMAL),
    average_divisor: marked!(b'/', 1, NARROW),
    vacant: row!(b"VAZIAS", 0, NARROW),
    end: *b"FIM",
};
