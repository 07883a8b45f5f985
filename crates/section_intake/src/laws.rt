//! What is so of every file. Each function here does nothing: its contract is the law.
ghost use Rattle.section_intake.specs.Laws.{EachIsAccepted, EachSectionOnce, EachVoteIsOfTheTables, FileIsAccepted, FirstsAreAccepted, NoMoreThanSections, OneListOfReports, OneListOfVerdicts, OneVerdict, SameSections, SomeReports, SomeVerdict, SomeVerdicts, SumsAreFew, SumsAreSmall, SumsAreWithinAll, TextHasParts, VotesAddUp};

/// Of a file that is shorter than 2^63 bytes there is one verdict.
pub fn verdicts()
    ensures some { SomeVerdict }
    ensures one { OneVerdict }
{}

/// The text of a report has parts, whose file is accepted by the tables that the report fits.
pub fn files()
    ensures parts { TextHasParts }
    ensures accepted { FileIsAccepted }
{}

/// Of files that are offered one behind the other, each shorter than 2^63 bytes, there is one list of verdicts and one of accepted
/// files. Each accepted file is by itself the report of a section, and no other is of the same one, so there are no more of them
/// than sections. They are the files that are the first of their section among all that are offered, in order.
pub fn offers()
    ensures some { SomeVerdicts }
    ensures one { OneListOfVerdicts }
    ensures each { EachIsAccepted }
    ensures once { EachSectionOnce }
    ensures few { NoMoreThanSections }
    ensures first { FirstsAreAccepted }
    ensures sections { SameSections }
{}

/// Of accepted files there is one list of reports, which fit and are of different sections, and so one of each sum; no sum is above
/// 9,999 for each file, and none of an intake above 19,998,000. Each vote of a panel is one of a candidate or a party of the tables,
/// blank or null.
pub fn sums()
    ensures some { SomeReports }
    ensures one { OneListOfReports }
    ensures within { SumsAreWithinAll }
    ensures few { SumsAreFew }
    ensures small { SumsAreSmall }
    ensures told { EachVoteIsOfTheTables }
    ensures whole { VotesAddUp }
{}
