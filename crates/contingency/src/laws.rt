//! Laws of replaced devices (`specs/Laws.antt`). Each function here does nothing: its contract is the law.
ghost use Rattle.contingency.specs.Laws.{OneCause, ReplacementGoesOn, SpareIsFound, StandsOnce};

/// A device stands for one section and one state at most, and one answer at most has its cause.
pub fn one_standing()
    ensures once { StandsOnce }
    ensures cause { OneCause }
{}

/// Wherever the power stops a replacement, the next call finds a device that may be replaced again, or the poll. It finds the poll, too,
/// where a spare that was loaded for the same section stands in the place of the one that broke.
pub fn goes_on()
    ensures stopped { ReplacementGoesOn }
    ensures spare { SpareIsFound }
{}
