//! What bags, counters and records are. Each function here does nothing: its contract is the law.
ghost use Rattle.vote_record.specs.Laws.{SameIsOne, KnownByCounts, StaysInOrder, CountsOneMore, HasOneMore, ComeInEitherOrder, VotesComeInEitherOrder, ChangesItsBag, KeepsOtherBags};
ghost use Rattle.vote_record.specs.Laws.{CountsWhatMayBeChosen, BagOfCounts, CountsOfBag, IsBagOfCounts};
ghost use Rattle.vote_record.specs.Laws.{StartsWithVotes, KeepsToVotes, KeepsToManyVotes};

/// Lists in the order of choices are bags, and votes may come in any order.
pub fn bags()
    ensures same { SameIsOne }
    ensures known { KnownByCounts }
    ensures in_order { StaysInOrder }
    ensures counts { CountsOneMore }
    ensures members { HasOneMore }
    ensures either_order { ComeInEitherOrder }
    ensures votes { VotesComeInEitherOrder }
    ensures changed { ChangesItsBag }
    ensures others { KeepsOtherBags }
{}

/// A panel's bag and the numbers of its counters, one for each of its choices, are the same: each is made from the other.
pub fn counters()
    ensures choices { CountsWhatMayBeChosen }
    ensures back { BagOfCounts }
    ensures forth { CountsOfBag }
    ensures bag { IsBagOfCounts }
{}

/// A record of some tables has only votes that are choices of their panels, as long as each is added with these tables; so
/// `Rdv::count` is 0 for a choice that is none of the panel's (its clause `lacking`).
pub fn records()
    ensures starts { StartsWithVotes }
    ensures keeps { KeepsToVotes }
    ensures keeps_many { KeepsToManyVotes }
{}
