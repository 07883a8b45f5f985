//! What is so of every record text. Each function here does nothing: its contract is the law.
ghost use Rattle.record_audit.specs.Laws.{AgreeSaysSame, DifferenceIsFirst, NeverBoth, OneAnswer, OneFault, SaysSameAgrees, SectionAgrees, TextIsShort};

/// A text has a first line that may not stand there, or it spells one record, and never both. One that spells a record has at most 131,072
/// bytes.
pub fn texts()
    ensures one_answer { OneAnswer }
    ensures never_both { NeverBoth }
    ensures one_fault { OneFault }
    ensures short { TextIsShort }
{}

/// What a recount finds in an office is the first choice at which lines and numbers differ.
pub fn differences()
    ensures { DifferenceIsFirst }
{}

/// The record and the report of one section agree. A recount finds that a record and a report agree exactly where they say the same.
pub fn records()
    ensures section { SectionAgrees }
    ensures agree { AgreeSaysSame }
    ensures same { SaysSameAgrees }
{}
