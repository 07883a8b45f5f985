//! What reports are. The function here does nothing: its contract is the law.
ghost use Rattle.poll_report.specs.Laws.{HaveSpelling};

/// The report of a section is one that has a spelling.
pub fn reports()
    ensures { HaveSpelling }
{}
