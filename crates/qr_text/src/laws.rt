//! What is so of every field text. Each function here does nothing: its contract is the law.
ghost use Rattle.qr_text.specs.Laws.{FieldsArePlain, NeverBoth, NotBoth, OneAnswer, OneFault, OneOfBoth, OneReport, OneText, ReportIsSaid, SaidIsReport, SaysOne, ShortByVotes, TextHasFields, TextIsShort, TextSpellsReport};

/// A text has one fault, or it says one thing rightly, and never both.
pub fn faults()
    ensures one_of_both { OneOfBoth }
    ensures not_both { NotBoth }
    ensures one_fault { OneFault }
    ensures says_one { SaysOne }
{}

/// What is said rightly is what one report says.
pub fn reports()
    ensures said { ReportIsSaid }
    ensures back { SaidIsReport }
    ensures one { OneReport }
{}

/// A text has a fault, or it spells one report, and never both. A report has one text, which spells that report and no other.
pub fn spellings()
    ensures one_answer { OneAnswer }
    ensures never_both { NeverBoth }
    ensures one_text { OneText }
    ensures one_report { TextSpellsReport }
{}

/// The fields of a report's text are its pieces, and plain: short, and of bytes that are seen. The text isn't long for its votes.
pub fn texts()
    ensures fields { TextHasFields }
    ensures plain { FieldsArePlain }
    ensures by_votes { ShortByVotes }
    ensures short { TextIsShort }
{}
