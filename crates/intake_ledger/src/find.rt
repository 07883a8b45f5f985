//! Finding the ledger that both flashes hold.
ghost use Rattle.std.specs.Prelude.{[], IfOk, IfErr, IsSome, OnOk};
ghost use Rattle.std.specs.Option.{ForSome};
ghost use Rattle.urna_outside.specs.Faults.{IsFaultless};
ghost use Rattle.urna_outside.specs.Told.{Does};
ghost use Rattle.twin_image.specs.Found.{found_body};
ghost use Rattle.twin_image.specs.Held.{HoldsBody};
ghost use Rattle.twin_image.specs.Slots.{AreClean};
ghost use Rattle.intake_ledger.specs.Body.{rank_in};
ghost use Rattle.intake_ledger.specs.Calls.{EndsLooking};
ghost use Rattle.intake_ledger.specs.Kept.{AreDevices, AreFramed};
ghost use Rattle.intake_ledger.specs.Layout.{body_size};

use crate::frame::test_frames;
use crate::layout::BODY_SIZE;
use crate::ledger::LedgerError;
use crate::ranks::Ranks;
use election_tables::Tables;
use twin_image::{Found, SurveyError, Twin};
use urna_outside::Machine;

/// The body that both devices hold under the frames of these tables. It reads and does nothing else. The caller owes that nothing is
/// dirty.
pub(crate) fn find<M: Machine>(
    tables: &Tables,
    twin: Twin<BODY_SIZE>,
    m: &mut M,
) -> Result<Found<BODY_SIZE>, LedgerError>
    requires devices { AreDevices (M.told m.old).sizes }
    requires clean { ForSome (M.told m.old).flashes AreClean }
    ensures framed { OnOk result (ForSome (M.told m.old).flashes (AreFramed tables.now)) }
    ensures held { IfOk result (λ found. ForSome (M.told m.old).flashes (HoldsBody (rank_in tables.now) body_size (found_body found))) }
    ensures ranked { IfOk result (λ found. IsSome (rank_in tables.now (found_body found))) }
    ensures done { Does [] (M.told m.old) (M.told m.new) }
    ensures fine { OnOk result (IsFaultless (M.told m.old) (M.told m.new)) }
    ensures fails { IfErr result (EndsLooking tables.now (M.told m.old) (M.told m.new)) }
{
    test_frames(tables, m)?;
    let ranks = Ranks { tables };
    match twin.survey(m, &ranks) {
        Ok(found) => Ok(found),
        Err(SurveyError::Flash(dev)) => Err(LedgerError::Flash(dev)),
        Err(SurveyError::NoImage) => Err(LedgerError::NoImage),
    }
}
