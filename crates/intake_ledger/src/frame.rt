//! Looking at the frames of both devices.
ghost use Rattle.std.specs.Prelude.{[], IfErr, OnOk};
ghost use Rattle.std.specs.Option.{ForSome};
ghost use Rattle.urna_outside.specs.Faults.{IsFaultless};
ghost use Rattle.urna_outside.specs.Told.{Does};
ghost use Rattle.intake_ledger.specs.Calls.{EndsLooking};
ghost use Rattle.intake_ledger.specs.Kept.{AreDevices, AreFramed};

use crate::header::header;
use crate::layout::BODY_SIZE;
use crate::ledger::LedgerError;
use election_tables::Tables;
use flash_store::has_frame;
use urna_outside::{Dev, Machine};

/// Whether both devices have the frame of a ledger of these tables, Internal tested first: no error where they have. It reads and does
/// nothing else.
pub(crate) fn test_frames<M: Machine>(tables: &Tables, m: &mut M) -> Result<(), LedgerError>
    requires { AreDevices (M.told m.old).sizes }
    ensures framed { OnOk result (ForSome (M.told m.old).flashes (AreFramed tables.now)) }
    ensures done { Does [] (M.told m.old) (M.told m.new) }
    ensures fine { OnOk result (IsFaultless (M.told m.old) (M.told m.new)) }
    ensures fails { IfErr result (EndsLooking tables.now (M.told m.old) (M.told m.new)) }
{
    match has_frame::<M, BODY_SIZE>(m, Dev::Internal, &header(tables, Dev::Internal)) {
        Ok(true) => {}
        Ok(false) => return Err(LedgerError::Foreign(Dev::Internal)),
        Err(dev) => return Err(LedgerError::Flash(dev)),
    }
    match has_frame::<M, BODY_SIZE>(m, Dev::External, &header(tables, Dev::External)) {
        Ok(true) => Ok(()),
        Ok(false) => Err(LedgerError::Foreign(Dev::External)),
        Err(dev) => Err(LedgerError::Flash(dev)),
    }
}
