//! The ledger of a counting centre on two flashes.
ghost use Rattle.std.specs.Prelude.{◌≡◌, ◌∷◌, ◌++◌, ◌<◌, ◌^◌, [], ℕ, List, length, false, IfOk, IfErr, OnOk};
ghost use Rattle.std.specs.Option.{ForSome};
ghost use Rattle.urna_outside.specs.Faults.{FailsAt, IsFaultless};
ghost use Rattle.urna_outside.specs.Flash.{Op};
ghost use Rattle.urna_outside.specs.ShownLines.{Shows};
ghost use Rattle.urna_outside.specs.Told.{Runs, port_of};
ghost use Rattle.poll_report.specs.Report.{IsReport};
ghost use Rattle.gate_slot.specs.Front.{RunsUpTo};
ghost use Rattle.twin_image.specs.Rewrite.{PutsAtMost};
ghost use Rattle.flash_store.specs.Calls.{Commits};
ghost use Rattle.flash_store.specs.InUse.{IsLoad};
ghost use Rattle.flash_store.specs.Syncs.{both_synced};
ghost use Rattle.report_lines.specs.Verdicts.{numbered_line};
ghost use Rattle.intake_ledger.specs.Body.{StandsFor, is_marked};
ghost use Rattle.intake_ledger.specs.Calls.{FailsToFormat, FailsToOffer, FailsToOpen, HasOffered, IsOpening, Keeps, Loads, Opens};
ghost use Rattle.intake_ledger.specs.Header.{header};
ghost use Rattle.intake_ledger.specs.Kept.{AreDevices, IsCommit, commit_bytes, ledgers};
ghost use Rattle.intake_ledger.specs.Layout.{body_size};
ghost use Rattle.intake_ledger.specs.Ledger.{LedgerData, empty_ledger, with_report};

use crate::body::{is_hash_at, is_marked};
use crate::find::find;
use crate::header::header;
use crate::in_use::test_free;
use crate::last::hash_of;
use crate::layout::{BODY_SIZE, HASH_SIZE};
use crate::ranks::Ranks;
use crate::room::Room;
use crate::sums::Totals;
use election_tables::Tables;
use flash_store::sync_both;
use poll_report::Report;
use report_lines::numbered_line;
use section_intake::{Checked, Verdict, check_report};
use std::alloc::Global;
use std::marker::Model;
use twin_image::Level;
use urna_outside::{Dev, Machine, Port, show_line};

/// Why there is no ledger.
#[derive(Clone, Copy, Debug, PartialEq, Eq)]
pub enum LedgerError {
    /// Want of memory. Nothing was done.
    Memory,
    /// The device failed, and its count of faults rose.
    Flash(Dev),
    /// The device has not the frame of a ledger of these tables.
    Foreign(Dev),
    /// No slot stands.
    NoImage,
    /// The device is in use.
    Busy(Dev),
}

/// Why a file's verdict was not told.
#[derive(Drop)]
pub enum OfferError {
    /// Want of memory. Nothing was done, and this is the ledger as it was.
    Memory(Ledger),
    /// The port failed, and its count of faults rose. `Ledger::open` says what the flashes hold.
    Port(Port),
}

/// A ledger that both flashes keep. Contracts see its totals, in whose body it stands.
#[derive(Drop)]
pub struct Ledger {
    alloc: Global,
    level: Level<BODY_SIZE>,
    totals: Totals,
}

impl Model for Ledger {
    ghost use Rattle.std.specs.Prelude.{◌≡◌};
    ghost use Rattle.intake_ledger.specs.Totals.{TotalsData};
    ghost use Rattle.twin_image.specs.Level.{HasTokens, body_of};

    ghost Value = { TotalsData };

    ghost view = { λ s. s.totals };

    ghost invariant = { λ s. HasTokens s.level × (body_of s.level ≡ s.totals.body) };
}

impl Ledger {
    /// Lays the ledger of these tables before the first report on both flashes: headers, zeros behind the gates, open gates and its body
    /// in all four slots. It takes its memory, syncs both devices and tests whether one is in use, Internal first, before it writes. No
    /// device is in use at any stop behind the syncs. The order of all that is done is that of `IsLoad`, up to a fault a front of it.
    ///
    /// The caller owes that both devices have DEVICE_SIZE bytes. `Memory` comes where an allocation failed, before any call of the
    /// machine; `Busy` where that device is in use, and nothing was written; `Flash` only where that device's count of faults rose.
    pub fn format<M: Machine>(
        alloc: Global,
        tables: &Tables,
        m: &mut M,
    ) -> Result<Ledger, LedgerError>
        requires devices { AreDevices (M.told m.old).sizes }
        ensures kept { IfOk result (λ ledger. Keeps tables.now (M.told m.new) ledger (empty_ledger tables.now)) }
        ensures ran { OnOk result (Runs (λ ops. (rest : List Op) × (ops ≡ both_synced ++ rest) × Loads (M.told m.old) rest) (M.told m.old) (M.told m.new)) }
        ensures order { (body : List ℕ) → StandsFor tables.now (empty_ledger tables.now) body → ForSome (M.told m.old).flashes
            (λ start. RunsUpTo result (IsLoad body_size (header tables.now) body start) (M.told m.old) (M.told m.new)) }
        ensures fine { OnOk result (IsFaultless (M.told m.old) (M.told m.new)) }
        ensures fails { IfErr result (FailsToFormat (M.told m.old) (M.told m.new)) }
    {
        let Ok(room) = Room::new(alloc, tables) else {
            return Err(LedgerError::Memory);
        };
        if let Err(dev) = sync_both(m) {
            return Err(LedgerError::Flash(dev));
        }
        test_free(m)?;
        let Room { twin, totals } = room;
        let internal = header(tables, Dev::Internal);
        let external = header(tables, Dev::External);
        match twin.lay(m, &internal, &external, totals.body()) {
            Ok(level) => Ok(Ledger {
                alloc,
                level,
                totals,
            }),
            Err(dev) => Err(LedgerError::Flash(dev)),
        }
    }

    /// The ledger of these tables that both flashes keep, whatever a power cut left of them. It takes its memory, syncs both devices,
    /// looks at the frames and the slots, and heals the slots that don't stand with the held body, and no other. All this is done in that
    /// order, Internal first; where a device fails, the first operations of it were done, and of the next one a part or nothing. Both
    /// flashes hold the ledger at each stop behind the syncs. No frame is written.
    ///
    /// The caller owes that both devices have DEVICE_SIZE bytes. `Memory` comes where an allocation failed, before any call of the
    /// machine; `Foreign` where that device has not the frame of these tables, Internal first; `NoImage` where no slot stands; `Flash` only
    /// where that device's count of faults rose.
    pub fn open<M: Machine>(
        alloc: Global,
        tables: &Tables,
        m: &mut M,
    ) -> Result<Ledger, LedgerError>
        requires devices { AreDevices (M.told m.old).sizes }
        ensures opened { IfOk result (λ ledger. (l : LedgerData) × Keeps tables.now (M.told m.new) ledger l
            × Runs (λ ops. (rest : List Op) × (ops ≡ both_synced ++ rest) × Opens tables.now l (M.told m.old) rest) (M.told m.old) (M.told m.new)
            × ForSome (M.told m.old).flashes (λ start. Runs (IsOpening tables.now l start) (M.told m.old) (M.told m.new))) }
        ensures fine { OnOk result (IsFaultless (M.told m.old) (M.told m.new)) }
        ensures fails { IfErr result (FailsToOpen tables.now (M.told m.old) (M.told m.new)) }
    {
        let Ok(room) = Room::new(alloc, tables) else {
            return Err(LedgerError::Memory);
        };
        if let Err(dev) = sync_both(m) {
            return Err(LedgerError::Flash(dev));
        }
        let Room { twin, mut totals } = room;
        let found = find(tables, twin, m)?;
        match found.heal(m) {
            Ok(level) => {
                totals.set_body(level.body());
                Ok(Ledger {
                    alloc,
                    level,
                    totals,
                })
            }
            Err(dev) => Err(LedgerError::Flash(dev)),
        }
    }

    /// How many sections have an accepted report, and the sum of each choice of each panel over these reports.
    pub fn totals(&self) -> &Totals
        ensures { result.now ≡ self.now }
    {
        &self.totals
    }

    /// Offers a file. The verdict is that of `section_intake::check`; but the report of a section that has one is `Repeated` if the hash of
    /// its last part is the one that is kept, and `Conflict` if not. An accepted report is entered and committed, in the order of
    /// `IsCommit`; any other writes and syncs nothing. Then a line is shown that tells the number and the verdict. At each stop both
    /// flashes, and each alone, hold the ledger from before or the one behind, and from the first byte of the line on the one behind.
    ///
    /// The caller owes that the file is shorter than 2^31 bytes, that both devices have the size of a ledger's flash, that the tables are
    /// those of `format` or `open`, and that the flashes are at rest with the ledger. `Memory` comes where an allocation failed: the
    /// ledger is as it was, and nothing was written or shown. `Port` comes only where that port's count of faults rose; the ledger is then
    /// gone, and `open` says what the flashes hold.
    pub fn offer<M: Machine>(
        self,
        tables: &Tables,
        m: &mut M,
        number: u32,
        bytes: &[u8],
    ) -> Result<(Ledger, Verdict), OfferError>
        requires devices { AreDevices (M.told m.old).sizes }
        requires short { length bytes.now < 2 ^ 31 }
        requires kept { (l : LedgerData) × Keeps tables.now (M.told m.old) self l }
        ensures offered { IfOk result (λ x. (l : LedgerData) → Keeps tables.now (M.told m.old) self l
            → HasOffered tables.now l bytes.now number x.1 x.0 (M.told m.old) (M.told m.new)) }
        ensures fails { IfErr result (FailsToOffer tables.now self bytes.now number (M.told m.old) (M.told m.new)) }
    {
        // that the tables are whole is known of each call on them
        let _panels = tables.panels();
        let report = match check_report(self.alloc, tables, bytes) {
            Ok(Checked::Report(report)) => report,
            Ok(Checked::Refused(verdict)) => return self.tell(m, number, verdict),
            Err(_) => return Err(OfferError::Memory(self)),
        };
        let zone = report.zone;
        let section = report.section;
        let Some(place) = tables.section_place(zone, section) else {
            return self.tell(m, number, Verdict::Strange);
        };
        let hash = hash_of(bytes);
        if !is_marked(self.totals.body(), place) {
            let ledger = match self.accept(tables, m, place, &hash, &report) {
                Ok(ledger) => ledger,
                Err(dev) => return Err(OfferError::Port(Port::from(dev))),
            };
            return ledger.tell(m, number, Verdict::Accepted { zone, section });
        }
        if is_hash_at(self.totals.body(), place, &hash) {
            return self.tell(m, number, Verdict::Repeated { zone, section });
        }
        self.tell(m, number, Verdict::Conflict { zone, section })
    }

    /// Enters the report of the section in a place, which has none, and commits the ledger with it. A device is answered only where its
    /// count of faults rose.
    fn accept<M: Machine>(
        self,
        tables: &Tables,
        m: &mut M,
        place: u32,
        hash: &[u8; HASH_SIZE],
        report: &Report,
    ) -> Result<Ledger, Dev>
        requires devices { AreDevices (M.told m.old).sizes }
        requires kept { (l : LedgerData) × Keeps tables.now (M.told m.old) self l }
        requires place { place < length tables.now.sections }
        requires free { is_marked self.body place ≡ false }
        requires report { IsReport report.now }
        ensures ran { (l : LedgerData) → Keeps tables.now (M.told m.old) self l
            → Runs (Commits (ledgers tables.now) l (with_report tables.now place hash.now report.now l) (M.told m.old)) (M.told m.old) (M.told m.new) }
        ensures order { (l : LedgerData) → Keeps tables.now (M.told m.old) self l → ForSome (M.told m.old).flashes
            (λ start. RunsUpTo result (IsCommit tables.now l (with_report tables.now place hash.now report.now l)) (M.told m.old) (M.told m.new)) }
        ensures bytes { Runs (PutsAtMost commit_bytes) (M.told m.old) (M.told m.new) }
        ensures kept { IfOk result (λ ledger. (l : LedgerData) → Keeps tables.now (M.told m.old) self l
            → Keeps tables.now (M.told m.new) ledger (with_report tables.now place hash.now report.now l)) }
        ensures fails { FailsAt port_of result (M.told m.old) (M.told m.new) }
    {
        let Ledger {
            alloc,
            level,
            mut totals,
        } = self;
        totals.enter(tables, place, hash, report);
        let ranks = Ranks { tables };
        match level.commit(m, &ranks, totals.body()) {
            Ok(level) => Ok(Ledger {
                alloc,
                level,
                totals,
            }),
            Err(dev) => Err(dev),
        }
    }

    /// Shows the line of a verdict. It fails only where the display failed, which may have shown a front of the line.
    fn tell<M: Machine>(
        self,
        m: &mut M,
        number: u32,
        verdict: Verdict,
    ) -> Result<(Ledger, Verdict), OfferError>
        ensures shown { Shows result (numbered_line number verdict ∷ []) (M.told m.old) (M.told m.new) }
        ensures same { IfOk result (λ x. (x.0 ≡ self) × (x.1 ≡ verdict)) }
        ensures port { IfErr result (λ e. e ≡ OfferError.Port Port.Display) }
    {
        match show_line(m, numbered_line(number, verdict).as_bytes()) {
            Ok(()) => Ok((self, verdict)),
            Err(_) => Err(OfferError::Port(Port::Display)),
        }
    }
}
