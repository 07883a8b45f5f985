//! The headline (`specs/Headline.antt`), and the same of any calls and exchanges one after the other (`specs/Again.antt`); what is done over a
//! replaced flash (`specs/Replaced.antt`); laws of what lies at rest
//! (`specs/AtRest.antt`), of reports that are accepted (`specs/Accepting.antt`) and agree with their records (`specs/Recounts.antt`), of certificates
//! (`specs/Certificates.antt`), of what puts nothing on a flash (`specs/Idle.antt`,
//! `specs/NeverBusy.antt`), of what each command may touch (`specs/Touching.antt`), of endings (`specs/Laws.antt`, `specs/Completion.antt`), and of
//! files that are put (`specs/Putting.antt`, `specs/Ensaio.antt`).
ghost use Rattle.call_laws.specs.Accepting.{EmittedIsAccepted, VotedIsAccepted};
ghost use Rattle.call_laws.specs.Again.{EitherMayBeExchanged, ExchangeLeavesIt, LedHasBallots, LoadMakesReady, LoadMayFollow, NextIsSafe, OpenedStays, RestStandsAlone, StepsKeepVotes, StillStandsAlone};
ghost use Rattle.call_laws.specs.AtRest.{AllAreCounted, DoneIsWhole, LateFaultIsSealed, RestsWhereNoFlashFailed, SameAtRest, SameInAnyOrder};
ghost use Rattle.call_laws.specs.Certificates.{CertifiedIsValid, VerifiedTellsSeats};
ghost use Rattle.call_laws.specs.Completion.{CompletesWhereItCan, TellsOfRisenCounts};
ghost use Rattle.urna_commands.specs.Ensaio.{SixAreThere};
ghost use Rattle.call_laws.specs.Headline.{AloneFromTheFirstShow, KeysHaveRun, VotesAreKept};
ghost use Rattle.call_laws.specs.Idle.{IdleEndings, IdleLeavesNoMore, LoadIsKeptOut, OpenedIsInUse, OthersAreKeptOut};
ghost use Rattle.urna_commands.specs.Laws.{CertifyEndsSo, FoundOnce, OneCertifyStatus, OneRecountStatus, OneTotalStatus, OneVerifyStatus, RecountEndsSo, RefusedEndSo, RefusedOnce, RefusedOrGiven, TotalEndsSo, VerdictEndsSo, VerifyEndsSo};
ghost use Rattle.call_laws.specs.NeverBusy.{LoadIsNotBusy, LoadLeavesFree};
ghost use Rattle.urna_commands.specs.Putting.{BothAreThere};
ghost use Rattle.call_laws.specs.Recounts.{EmittedAgree, SealedAgree, VotedAgree};
ghost use Rattle.call_laws.specs.Replaced.{ReplacedIsForeign, ReplacedIsLoaded, StandingIsInUse};
ghost use Rattle.call_laws.specs.Touching.{EachTouchesAtMost};

/// Where the cabinet tells its files, the words and the files determine whether they are refused, with which status, which verdict `confere`
/// gives, what `reconta` finds, whether `certifica` has a certificate to write, and what `verifica` says of one. A command ends so, unless memory was
/// wanted, or the cabinet or, of `confere`, `totaliza`, `reconta`, `certifica` and `verifica`, the display failed.
pub fn one_ending()
    ensures once { RefusedOnce }
    ensures either { RefusedOrGiven }
    ensures refused { RefusedEndSo }
    ensures verdict { VerdictEndsSo }
    ensures total { OneTotalStatus }
    ensures so { TotalEndsSo }
    ensures recount { OneRecountStatus }
    ensures recounted { RecountEndsSo }
    ensures certificate { OneCertifyStatus }
    ensures certified { CertifyEndsSo }
    ensures check { OneVerifyStatus }
    ensures checked { VerifyEndsSo }
{
    key_script::laws::names_or_bad_line();
}

/// Where the machine tells its flashes, they say which poll they hold, and so whether `emite` finds it sealed.
pub fn one_poll()
    ensures { FoundOnce }
{
    state_store::laws::one_finding();
    state_store::laws::one_held();
}

/// Where the cabinet tells its files and the machine its flashes, a call that has what its command needs, and in which nothing failed,
/// does all its steps, or memory was wanted; `confere` may refuse the report besides, `totaliza` some of the listed ones, and `verifica` the
/// certificate, `reconta` may find that both disagree, and `certifica` that there are no seats. A rehearsal does so over any cabinet and machine,
/// and over any a call in which no count rose tells of none.
pub fn completion()
    ensures done { CompletesWhereItCan }
    ensures counts { TellsOfRisenCounts }
{
    one_poll();
    state_store::laws::one_finding();
    state_store::laws::one_held();
    key_script::laws::names_or_bad_line();
}

/// The headline. Wherever the power stops a call of `vota` behind its two opening syncs, both flashes, and from the first show on
/// each alone, hold the state after a prefix of the presses: the poll that was found with the ballots whose FIM was shown, and with at most
/// one more. Where a call ends with Done they hold all ballots of its run. Each list of keys has a run.
pub fn votes_are_kept()
    ensures kept { VotesAreKept }
    ensures alone { AloneFromTheFirstShow }
    ensures counted { AllAreCounted }
    ensures run { KeysHaveRun }
{}

/// Steps over flashes that a load made ready, one after the other: calls of any words, each of which the power stops anywhere or which ends,
/// and exchanges of a flash for another one that isn't in use. What is left behind them is the poll to which prefixes of the presses of the
/// calls of `vota` lead, with the ballots whose FIM was shown in any of them, and at most one more of each that was stopped or that a flash or
/// the display failed. Where no flash was exchanged and `repoe` wasn't called, both flashes hold it; else they do, or one of them was replaced
/// and the other one stands for it. This is asked of the steps: while the poll is still ready no `carga` writes, nor a `repoe` that names the
/// flash that stands beside one without the frame of the load; no `vota` and no `repoe` gets other tables or another roll of the same SHA-256; and a flash is
/// exchanged where the one that stays stands for a poll to which the steps lead, as each does behind a session that began to show its text,
/// and each at rest; and as it still does behind a call that put nothing and leads nowhere, and behind any exchange and any `repoe` of the
/// other one. A poll that was opened stays one that was, and no `carga` takes it away. The next call finds such a poll, and where both flashes hold it the
/// headline holds of it. Where neither flash is in use, whatever a power cut leaves of them, as a load leaves them, a `carga` leaves such flashes
/// again, ended or stopped. With each `carga` that is Done the steps begin anew.
pub fn again_and_again()
    ensures kept { StepsKeepVotes }
    ensures next { NextIsSafe }
    ensures ballots { LedHasBallots }
    ensures exchange { EitherMayBeExchanged }
    ensures still { StillStandsAlone }
    ensures exchanged { ExchangeLeavesIt }
    ensures rest { RestStandsAlone }
    ensures opened { OpenedStays }
    ensures load { LoadMakesReady }
    ensures anew { LoadMayFollow }
{}

/// Over a replaced flash that isn't of the load, beside one that stands for a poll, `vota` puts nothing, unless it is given a collision of
/// SHA-256. With the documents of the load it and `emite` tell that a flash isn't of this load, and `repoe` of it leaves both flashes at rest with
/// that poll; or memory was wanted, or the cabinet or a flash failed. A flash that stands for a poll which was opened is in use.
pub fn a_replaced_flash()
    ensures foreign { ReplacedIsForeign }
    ensures loaded { ReplacedIsLoaded }
    ensures used { StandingIsInUse }
{}

/// What a `vota` that has its documents leaves of a poll of them, where machine and cabinet tell. Done: the text of the whole run was shown,
/// both flashes are at rest with its last state, and where that is sealed the two files of results are there and all other names are as
/// before. Where memory was wanted or the cabinet failed, it made no call of the machine, or that state is sealed and at rest. Where no flash
/// failed, it made no call of the machine, or both flashes are at rest with the state after a prefix of the presses.
pub fn what_vota_leaves()
    ensures done { DoneIsWhole }
    ensures late { LateFaultIsSealed }
    ensures rest { RestsWhereNoFlashFailed }
{}

/// The report that a `vota` or an `emite` put that is Done is accepted by a `confere` of it with the same tables, whose name is none of the two
/// files'; or memory was wanted, or the cabinet or the display failed.
pub fn put_and_accepted()
    ensures voted { VotedIsAccepted }
    ensures emitted { EmittedIsAccepted }
{}

/// The record and the report of a sealed poll are read and agree. So over the two files that a `vota` or an `emite` put that is Done `reconta`
/// tells that they agree; or memory was wanted, or the cabinet or the display failed.
pub fn recounts()
    ensures sealed { SealedAgree }
    ensures voted { VotedAgree }
    ensures emitted { EmittedAgree }
{}

/// The certificate that `verifica` finds valid tells the seats to which the law comes over the accepted reports, whoever made it. Of the one that a
/// `certifica` put that is Done, under a name of its own, `verifica` with the same tables, list and code tells that it is valid; or memory was wanted,
/// or the cabinet or the display failed.
pub fn certificates()
    ensures seats { VerifiedTellsSeats }
    ensures valid { CertifiedIsValid }
{
    key_script::laws::names_or_bad_line();
}

/// Where neither flash is in use when `carga` has synced both, neither is at any later stop of the call; and where neither is, `carga`
/// doesn't answer that one is. So a load that is stopped keeps no later load from its work. Where one is in use, `carga` puts nothing, and
/// behind its syncs it answers so, or a flash failed. One is in use wherever the flashes hold a poll that was opened.
pub fn never_busy()
    ensures free { LoadLeavesFree }
    ensures answer { LoadIsNotBusy }
    ensures busy { LoadIsKeptOut }
    ensures opened { OpenedIsInUse }
{}

/// The endings with which a command has put nothing on a flash. Over flashes that hold a poll `vota` does no more than its two opening syncs
/// where it is given tables or a roll of another SHA-256, and shows nothing but its fault line. Where the power stops such a call, what it
/// leaves it might have left before.
pub fn puts_nothing()
    ensures endings { IdleEndings }
    ensures others { OthersAreKeptOut }
    ensures stops { IdleLeavesNoMore }
{}

/// What each command may touch, however it ends.
pub fn what_is_touched()
    ensures { EachTouchesAtMost }
{}

/// Where both files of results were put into a cabinet that tells its files, both are there, each under its name, and all other names are as
/// before.
pub fn both_files()
    ensures { BothAreThere }
{}

/// Where the six files of `ensaio` were put into a cabinet that tells its files, all six are there.
pub fn six_files()
    ensures { SixAreThere }
{}

/// Two polls of one load with the same moments, voters and votes leave the same flashes and the same files of results, in whatever order
/// the voters came and whoever chose what. So do two sessions over one poll that are Done, whose ballots are the same in another order and
/// which leave it in the same phase with the same moments; the files, where it is sealed and the word OUT is the same.
pub fn no_order()
    ensures states { SameAtRest }
    ensures sessions { SameInAnyOrder }
{
    image_codec::laws::order();
}
