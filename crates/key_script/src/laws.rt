//! What holds of every text of keys and of every list. Each function here does nothing: its contract is the law.
ghost use Rattle.key_script.specs.Laws.{OneAnswers, OneListAnswers};
ghost use Rattle.key_script.specs.Spelling.{LinesAreSpelled};

/// A text has events exactly where no line is outside the form.
pub fn events_or_bad_line()
    ensures { OneAnswers }
{}

/// A list has names exactly where no line is outside the form.
pub fn names_or_bad_line()
    ensures { OneListAnswers }
{}

/// The events of a line are those that it spells: a clerk's valid key, or at least one valid key of the voter. So each
/// event has one spelling, and each line that spells events is read.
pub fn lines_are_spelled()
    ensures { LinesAreSpelled }
{}
