//! What is so of all contests, and of all candidates. Each function here does nothing: its contract is the law.
ghost use Rattle.seat_remainders.specs.Laws.{AreTheSame, AwardsAreAverages, EachSeatIsFilled, EligibleBelowMost, FrontIsPhaseTwo, FrontsAreRounds, HasOneOutcome, HasOneTable, HasOutcome, NextTakesSeat, NoAveragesWithoutSeats, NoQuotientAtZero, NobodyWithoutVotes, OverBeyondAllSeats, OverOnlyBelowHalf, RunoffWithoutMajority, SeatsAddUp, StandInOrder};

/// A contest has exactly one outcome, which can be computed, and the numbers of the contest say of which kind it is.
pub fn outcomes()
    ensures some { HasOutcome }
    ensures one { HasOneOutcome }
    ensures no_quotient { NoQuotientAtZero }
    ensures over { OverBeyondAllSeats }
{}

/// All seats are given or vacant, and each that is given is filled; the first phase comes to too many only where the quotient is at most
/// half of the seats.
pub fn seats()
    ensures add_up { SeatsAddUp }
    ensures filled { EachSeatIsFilled }
    ensures over { OverOnlyBelowHalf }
{}

/// A contest has one list of averages, and none where the first phase leaves no seat. The next average of a table is that of the party
/// which takes the next seat, so the rounds of phase 2 are the front of this list, all rounds are the fronts of two tables, and behind
/// given seats stand the averages that gave them.
pub fn tables()
    ensures one { HasOneTable }
    ensures none { NoAveragesWithoutSeats }
    ensures next { NextTakesSeat }
    ensures phase_two { FrontIsPhaseTwo }
    ensures fronts { FrontsAreRounds }
    ensures awards { AwardsAreAverages }
{}

/// A party is eligible in a round while it has fewer seats than it can have at most by the round's phase, so that eligibility is told by what
/// is counted of the party once.
pub fn eligible()
    ensures { EligibleBelowMost }
{}

/// The candidates in their order are the same candidates, each before all that are behind it.
pub fn candidate_order()
    ensures order { StandInOrder }
    ensures same { AreTheSame }
{}

/// When nobody is elected, and when two go to a second round.
pub fn majorities()
    ensures nobody { NobodyWithoutVotes }
    ensures runoff { RunoffWithoutMajority }
{}
