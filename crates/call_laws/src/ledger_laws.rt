//! The headline (`specs/Headline.antt`), calls one after the other (`specs/Again.antt`), with which refusal a call ends
//! (`specs/Laws.antt`), and which calls do all their steps (`specs/Completion.antt`). Each function here does nothing: its contract is the law.
ghost use Rattle.call_laws.specs.LedgerAgain.{BeginMakesReady, CallsKeepOffers, LedHasSums, NextIsFound, TotalsTellLedger};
ghost use Rattle.call_laws.specs.LedgerCompletion.{CompletesWhereItCan, TellsOfRisenCounts};
ghost use Rattle.call_laws.specs.LedgerHeadline.{LedgerIsKept, OffersAreKept};
ghost use Rattle.call_laws.specs.LedgerLaws.{RefusedEndSo, RefusedOnce};

/// The headline. Wherever the power stops a call of `recebe` behind its two opening syncs, both flashes, and from the first show on each
/// alone, hold the ledger that was found behind the first of the listed reports: those whose line began to be shown, and at most one more. Over
/// a call of `totais` they hold the ledger that was found.
pub fn offers_are_kept()
    ensures offers { OffersAreKept }
    ensures ledger { LedgerIsKept }
{}

/// Any calls one after the other, each of which ends or is stopped anywhere: what they leave holds the ledger to which they lead, behind each
/// report whose verdict began to be shown, and at most one more of each `recebe` that was stopped or in which a port failed. The next call
/// finds it. Asked is that no `abre` puts anything while no report is accepted, and that no call is given other tables of one SHA-256. After an
/// `abre` that is Done both flashes are ready for such calls.
pub fn again_and_again()
    ensures kept { CallsKeepOffers }
    ensures next { NextIsFound }
    ensures begins { BeginMakesReady }
{
    key_script::laws::names_or_bad_line();
}

/// The ledger to which calls lead from the one before the first report has the sums over the accepted ones of the reports that they took in.
/// What `totais` tells of it is told by the totals of these reports in that order too, which are those of `totaliza`.
pub fn same_totals()
    ensures sums { LedHasSums }
    ensures lines { TotalsTellLedger }
{}

/// Where the cabinet tells its files, the words and the documents that they name are refused with one status at most, and then a call ends with
/// it, unless memory was wanted or the cabinet failed.
pub fn one_ending()
    ensures refused { RefusedOnce }
    ensures ends { RefusedEndSo }
{
    key_script::laws::names_or_bad_line();
}

/// Where the cabinet tells its files and the machine its flashes, a call that has what its command needs, and in which nothing failed, does
/// all its steps, or memory was wanted; of `recebe` the verdicts on the listed reports give the status. Over any cabinet and machine, a call in
/// which no count rose ends with no status that tells of one.
pub fn completion()
    ensures done { CompletesWhereItCan }
    ensures counts { TellsOfRisenCounts }
{
    key_script::laws::names_or_bad_line();
}
