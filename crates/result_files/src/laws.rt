//! Laws of reports (`specs/Reports.antt`).
ghost use Rattle.result_files.specs.Reports.{SealedHasFile, SealedHasReport, SealedHasText, SealedIsAccepted};

/// Each sealed poll of a section of the tables has a report, the report a text that spells it, and the text a file, which is the report's,
/// is no longer than a report may be, and is accepted.
pub fn reports()
    ensures report { SealedHasReport }
    ensures text { SealedHasText }
    ensures file { SealedHasFile }
    ensures accepted { SealedIsAccepted }
{}
