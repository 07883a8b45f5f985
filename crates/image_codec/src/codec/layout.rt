//! Where the fields of a body stand (docs/FORMATS.md, "The body"). `specs/Layout.antt` has the same. Both versions have the same
//! head.

/// The bytes of a body.
pub const BODY_SIZE: usize = 65_536;

/// The version of the image that is written, which is the first byte.
pub(super) const VERSION: u8 = 2;

/// The version that is read besides.
pub(super) const FIRST_VERSION: u8 = 1;

/// The byte of the phase.
pub const PHASE_OFFSET: usize = 1;

/// Where the opening moment begins.
pub(super) const OPENING_OFFSET: usize = 2;

/// Where the closing moment begins.
pub(super) const CLOSING_OFFSET: usize = 10;

/// Where the number of those who came begins.
pub(super) const COUNT_OFFSET: usize = 18;

/// Where the marks of those who came begin.
pub(super) const TURNOUT_OFFSET: usize = 22;

/// How many bytes those marks take.
pub(super) const TURNOUT_SIZE: usize = 75;

/// How many places they have marks for.
pub(super) const TURNOUT_PLACES: u32 = 8 * TURNOUT_SIZE as u32;

/// The byte of the number of panels.
pub(super) const PANELS_OFFSET: usize = 97;

/// How many bytes the head has, in which all these fields stand.
pub(super) const HEAD_SIZE: usize = 98;

/// How many bytes stand in a bag of the first version before its votes.
pub(super) const BAG_HEAD_SIZE: usize = 4;

/// How many bytes a vote takes there.
pub(super) const VOTE_SIZE: usize = 5;

/// Where the counters begin.
pub(super) const COUNTERS_OFFSET: usize = 512;

/// How many bytes a counter takes.
pub(super) const COUNTER_SIZE: usize = 4;
