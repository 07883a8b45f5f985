//! What is so of all quotients and averages. Each function here does nothing: its contract is the law.
ghost use Rattle.quotients.specs.Laws.{QuotientIsNearest, OnlyQuotientIsNearest, NeverBeforeItself, ComeInSomeOrder, ComesBeforeAllBehind, FallsAsDivisorGrows, TypeIsInOrder};

/// The electoral quotient is the whole number nearest to votes over seats, the lower one at a half, and no other number is.
pub fn nearest()
    ensures nearest { QuotientIsNearest }
    ensures only { OnlyQuotientIsNearest }
{}

/// Averages stand in one strict order, which is that of `Average`, and the average of a party falls as its divisor grows.
pub fn averages()
    ensures strict { NeverBeforeItself }
    ensures total { ComeInSomeOrder }
    ensures transitive { ComesBeforeAllBehind }
    ensures kept { TypeIsInOrder }
    ensures falls { FallsAsDivisorGrows }
{}
