//! What is so of all totals (`specs/Laws.antt`). Each function here does nothing: its contract is the law.
ghost use Rattle.totals.specs.Laws.{CandidatesHaveNominalVotes, ContestHasValidVotes, EachPartyHasOneBloc, ElectedAreCandidates, ElectedHaveVotes, MajorityHasNoPartyVotes, MajorityIsOfCandidates, NobodyHasTwoSeats, NobodyIsElectedTwice, OneSeatByMajority, OneTotals, SeatsAreOfBlocs, SeatsAreOfCandidates, SeatsAreTaken, SomeTotals, TotalIsAllVotes, WithoutFederations};

/// Over each list of reports there is one list of lines that tells the totals. The votes of an office's line are all votes of the reports;
/// where the reports fit the tables, the nominal votes are those of the candidates, the valid votes those of the contest, and a majority
/// office has no party votes.
pub fn totals()
    ensures some { SomeTotals }
    ensures one { OneTotals }
    ensures whole { TotalIsAllVotes }
    ensures nominal { CandidatesHaveNominalVotes }
    ensures valid { ContestHasValidVotes }
    ensures party { MajorityHasNoPartyVotes }
{}

/// Each party is of exactly one bloc, and without federations the contest is that of the parties, number by number.
pub fn blocs()
    ensures one { EachPartyHasOneBloc }
    ensures parties { WithoutFederations }
{}

/// Whoever has a seat is a candidate of the office and of a party of the bloc that has it, and has one alone; whom a majority office elects,
/// or sends to a second round, is a candidate of it too. To one seat the simple rule elects whom `majority` elects by it. To any number of
/// seats it elects candidates of the office, nobody twice and nobody without a vote, as many as there are seats, or all who have a vote.
pub fn elected()
    ensures seats { SeatsAreOfCandidates }
    ensures blocs { SeatsAreOfBlocs }
    ensures once { NobodyHasTwoSeats }
    ensures majority { MajorityIsOfCandidates }
    ensures one_seat { OneSeatByMajority }
    ensures candidates { ElectedAreCandidates }
    ensures not_twice { NobodyIsElectedTwice }
    ensures votes { ElectedHaveVotes }
    ensures taken { SeatsAreTaken }
{}
