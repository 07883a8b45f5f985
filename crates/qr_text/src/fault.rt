//! Why a text spells no report.
use thiserror::Error;

/// The fault of a field text (docs/FORMATS.md, "Report text"): the first field that fails, counted from 1. The end of
/// the text stands in the place of one field more.
#[derive(Clone, Copy, Debug, PartialEq, Eq)]
pub enum FieldFault {
    /// This field may not stand there, or the text ends and it is still wanted.
    Field(u32),
    /// At this field a sum is tested, and the text says another number for it.
    Sum { field: u32, sum: u64, said: u64 },
}

/// Why a field text gives no report.
#[derive(Clone, Copy, Debug, PartialEq, Eq, Error)]
pub enum FieldError {
    /// Memory ran out.
    #[error("out of memory")]
    Memory,
    /// The text spells no report.
    #[error("the field text spells no report")]
    Fault(FieldFault),
}
