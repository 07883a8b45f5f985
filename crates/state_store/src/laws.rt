//! Laws of what is found on two flashes, and of sessions over them (`specs/Laws.antt`). Each function here does nothing: its
//! contract is the law.
ghost use Rattle.state_store.specs.Cost.{BallotCostsFew, OpeningCostsOnePage, SealingCostsOnePage};
ghost use Rattle.state_store.specs.Laws.{CostsAreBounded, EndGoesOn, ForeignOnce, HeldIsDecoded, LoadedOnce, LoadedOrForeign, OneIsHeld, RecoveryGoesOn, RestIsFound, SessionGoesOn};

/// Two flashes are loaded for one section at most; loaded flashes are not foreign; and not both sides are.
pub fn one_finding()
    ensures loaded { LoadedOnce }
    ensures either { LoadedOrForeign }
    ensures foreign { ForeignOnce }
{}

/// Which state some flashes hold is said by what the encodings of states are. It is what the decoder answers, and it is one.
pub fn one_held()
    ensures decoded { HeldIsDecoded }
    ensures one { OneIsHeld }
{}

/// Wherever the power stops a recovery or a session, or where a session ends, what is left is a poll of the same section: the next
/// call finds devices of their size, the frames of the load, and a state that both flashes hold. So it is with flashes at rest.
pub fn goes_on()
    ensures session { SessionGoesOn }
    ensures recovery { RecoveryGoesOn }
    ensures ended { EndGoesOn }
    ensures rest { RestIsFound }
{}

/// What a session does is bounded: at most 12 syncs for each state that its lines tell, and nothing but shows where they tell none. And
/// a commit writes few pages of each slot: that of a ballot at most two more than there are panels, however many voters came before; that
/// of an opening or a seal the one with the head alone.
pub fn commit_cost()
    ensures session { CostsAreBounded }
    ensures ballot { BallotCostsFew }
    ensures opening { OpeningCostsOnePage }
    ensures sealing { SealingCostsOnePage }
{}
