//! What marks are. Each function here does nothing: its contract is the law.
ghost use Rattle.turnout.specs.Laws.{NobodyCame, MarkedComes, OthersStay, CountsOneMore, AtMostAll, KnownByWhoCame};

/// Marks are a set of places: they are known by who came, and a new mark is that of its place alone, and is counted once.
pub fn marks()
    ensures none { NobodyCame }
    ensures marked { MarkedComes }
    ensures others { OthersStay }
    ensures count { CountsOneMore }
    ensures most { AtMostAll }
    ensures known { KnownByWhoCame }
{}
