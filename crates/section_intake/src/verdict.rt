//! What is said of the file of a report.
ghost use Rattle.std.specs.Prelude.{◌≡◌};
ghost use Rattle.section_intake.specs.Accepted.{is_accepted};

use hash_chain::PartFault;
use qr_text::FieldFault;

/// The verdict on the file of a report (docs/FORMATS.md, "Verdicts").
#[derive(Clone, Copy, Debug, PartialEq, Eq)]
pub enum Verdict {
    /// Its report fits the tables, and is of this section.
    Accepted { zone: u32, section: u32 },
    /// It is no parts of a field text.
    Part(PartFault),
    /// The fields of its parts spell no report.
    Fields(FieldFault),
    /// Its report is not of these tables.
    Strange,
    /// It is a file of this section that was accepted before.
    Repeated { zone: u32, section: u32 },
    /// It is another file of a section of which one was accepted before.
    Conflict { zone: u32, section: u32 },
}

impl Verdict {
    /// Whether the report is accepted.
    pub fn is_accepted(self) -> bool
        ensures { result ≡ is_accepted self }
    {
        matches!(self, Verdict::Accepted { .. })
    }
}
