//! Laws of ledgers (`specs/Laws.antt`). Each function here does nothing: its contract is the law.
ghost use Rattle.intake_ledger.specs.Laws.{AcceptedIsRepeated, AreLedgers, EmptyHasBody, HeldIsDecoded, LedgerIsIntake, OffersGoOn, OneBody, OneIsHeld, OneOffer, OpeningGoesOn, ReadExactly, RestIsFound, SomeOffer, TellLedger};

/// Bytes stand for a ledger exactly where that is what is read of them. It is one of the tables, and no other bytes stand for it. The ledger
/// before the first report has such bytes.
pub fn bodies()
    ensures exactly { ReadExactly }
    ensures ledgers { AreLedgers }
    ensures one { OneBody }
    ensures empty { EmptyHasBody }
{}

/// Totals of a ledger tell how many of its sections have a report, and the sum of each choice of each panel.
pub fn totals()
    ensures { TellLedger }
{}

/// Which ledger two flashes hold is said by what bytes stand for. It is one, and it is what the decoder answers. Flashes at rest with a
/// ledger are found with it.
pub fn one_ledger()
    ensures one { OneIsHeld }
    ensures decoded { HeldIsDecoded }
    ensures rest { RestIsFound }
{}

/// Wherever the power stops an opening or an offer, what is left is a ledger of the same tables again, which the next opening finds: that from
/// before, or one that was told or would have been next.
pub fn goes_on()
    ensures opening { OpeningGoesOn }
    ensures offers { OffersGoOn }
{}

/// Files that are offered to the ledger before the first report have the verdicts that `section_intake` gives them. Only where the accepted
/// file of its section has the same hash of its last part is a file in conflict told as repeated, and then two different texts have one SHA-512. The
/// ledger has the sums over the files that `section_intake` accepts, even then.
pub fn intake()
    ensures { LedgerIsIntake }
{}

/// A file of less than 2^63 bytes that is offered to a ledger has one verdict, and leaves one ledger. A file that was accepted is repeated from
/// then on, whatever is offered between.
pub fn offers()
    ensures one { OneOffer }
    ensures some { SomeOffer }
    ensures repeated { AcceptedIsRepeated }
{}
