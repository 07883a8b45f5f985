//! What is so of the steps of a poll and of its encodings. Each function here does nothing: its contract is the law.
ghost use Rattle.image_codec.specs.Laws.{CountsEachLine, ComeInEitherOrder, OpeningRises, BallotRises, SealingRises, ReadyIsValid, OpeningKeeps, BallotKeeps, SealingKeeps};
ghost use Rattle.image_codec.specs.CodecLaws.{IsDecodedExactly, IsOneState, HasRoomInBody, IsBodyLong, CountsInPlace, IsEncodingWhereCounted, IsInAnyOrder, IsKnownByVotes, HasBagOfEachPanel, HasAllVotes, HasNoOtherVotes};
ghost use Rattle.image_codec.specs.CodecLaws.{ReadyIsOfTables, OpeningStaysOfTables, BallotStaysOfTables, SealingStaysOfTables};

/// A ballot counts each of its lines once, the choices of two voters may come in either order, and each step leads to a greater
/// rank.
pub fn ballots()
    ensures counted { CountsEachLine }
    ensures either_order { ComeInEitherOrder }
    ensures opening { OpeningRises }
    ensures ballot { BallotRises }
    ensures sealing { SealingRises }
{}

/// Whatever steps a poll takes, its state is valid, and each vote of a panel is one of the choices there.
pub fn states()
    ensures ready { ReadyIsValid }
    ensures opening { OpeningKeeps }
    ensures ballot { BallotKeeps }
    ensures sealing { SealingKeeps }
{}

/// Whatever steps a poll of some tables takes, its state is one that has an encoding: with a bag for each panel, and in it all
/// votes of those who came, and none for a choice that is none of the panel's.
pub fn polls()
    ensures bags { HasBagOfEachPanel }
    ensures full { HasAllVotes }
    ensures no_other { HasNoOtherVotes }
    ensures ready { ReadyIsOfTables }
    ensures opening { OpeningStaysOfTables }
    ensures ballot { BallotStaysOfTables }
    ensures sealing { SealingStaysOfTables }
{}

/// Bytes are decoded as a state exactly where they are an encoding of it, of either version, so no two states have a common
/// encoding. What is written of a state has at most 18,240 bytes, what the first version wrote at most 27,130, and a body
/// 65,536. The counter of a choice stands where the tables alone tell. Bytes of the second version are an encoding exactly
/// where the counters of each panel count all votes of those who came, and what stands before and behind the counters is as
/// it is written.
pub fn codec()
    ensures decoded { IsDecodedExactly }
    ensures one { IsOneState }
    ensures room { HasRoomInBody }
    ensures body { IsBodyLong }
    ensures in_place { CountsInPlace }
    ensures counted { IsEncodingWhereCounted }
{}

/// In whatever order the voters came, the encoding is the same. It tells who came and how many votes each choice has, and nothing of
/// which voter chose what.
pub fn order()
    ensures order { IsInAnyOrder }
    ensures votes { IsKnownByVotes }
{}
