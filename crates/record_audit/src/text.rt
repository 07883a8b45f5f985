//! What a record text says.
use items::Items;
use vote_kinds::Choice;

/// Choices in a row.
pub type Choices = Items<Choice>;

/// The votes of an office in a record.
#[derive(Debug, Drop)]
pub struct RecordOffice {
    pub code: u8,
    pub votes: Choices,
}

/// Offices in a row.
pub type RecordOffices = Items<RecordOffice>;

/// What a record text says: of which election and section it is, and the votes of each office in the order of the ballot.
#[derive(Debug, Drop)]
pub struct RecordText {
    pub process: u32,
    /// The day of the poll, YYYYMMDD.
    pub date: u32,
    pub turn: u8,
    pub zone: u32,
    pub section: u32,
    pub offices: RecordOffices,
}
