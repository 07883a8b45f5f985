//! The syncs with which each call begins that finds out what the flashes hold.
ghost use Rattle.std.specs.Prelude.{OnOk, IfErr};
ghost use Rattle.urna_outside.specs.Faults.{EndsAt};
ghost use Rattle.urna_outside.specs.Told.{Runs, port_of};
ghost use Rattle.flash_store.specs.Syncs.{IsSynced, IsWithinSyncs};

use urna_outside::{Dev, Machine};

/// Syncs both devices, Internal first. Nothing is dirty afterwards, so what reads give stands whatever the power does.
/// A device is answered only where its count of faults rose.
pub fn sync_both<M: Machine>(m: &mut M) -> Result<(), Dev>
    ensures synced { OnOk result (IsSynced (M.told m.old) (M.told m.new)) }
    ensures fails { IfErr result (λ dev. EndsAt (port_of dev) (M.told m.old) (M.told m.new)) }
    ensures ran { IfErr result (λ dev. Runs IsWithinSyncs (M.told m.old) (M.told m.new)) }
{
    if m.sync(Dev::Internal).is_err() {
        return Err(Dev::Internal);
    }
    if m.sync(Dev::External).is_err() {
        return Err(Dev::External);
    }
    Ok(())
}
