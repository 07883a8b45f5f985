//! How much the tables and the roll may have (docs/FORMATS.md, "Limits").

/// The most offices, each of which is a panel of the ballot.
pub const MOST_OFFICES: usize = 8;

/// The most parties.
pub const MOST_PARTIES: usize = 40;

/// The most federations.
pub(crate) const MOST_FEDERATIONS: usize = 20;

/// The fewest parties of a federation.
pub(crate) const FEWEST_MEMBERS: usize = 2;

/// The most parties of a federation.
pub(crate) const MOST_MEMBERS: usize = 40;

/// The most candidates, of all offices together.
pub const MOST_CANDIDATES: usize = 4_096;

/// The most sections.
pub(crate) const MOST_SECTIONS: usize = 2_000;

/// The most voters of a section, and so the most titles of a roll.
pub const MOST_VOTERS: u64 = 600;

/// The most seats of an office that is decided in proportion.
pub(crate) const PROPORTIONAL_SEATS: u64 = 200;

/// The greatest number of a zone, and of a section.
pub const GREATEST_SECTION: u64 = 9_999;

/// The greatest number of an election.
pub const GREATEST_PROCESS: u64 = 99_999;

/// The most bytes of a name.
pub(crate) const LONGEST_NAME: usize = 70;
