//! Whether a device is in use, so that it may not be loaded.
ghost use Rattle.std.specs.Prelude.{◌≡◌, ◌<◌, ◌↔◌, [], IsTrue, IfOk, IfErr, OnOk};
ghost use Rattle.std.specs.Option.{ForSome};
ghost use Rattle.urna_outside.specs.Faults.{FailsAt, IsFaultless};
ghost use Rattle.urna_outside.specs.Flash.{flash_of};
ghost use Rattle.urna_outside.specs.Told.{Does, port_of, size_of};
ghost use Rattle.state_store.specs.Rest.{AreFree};
ghost use Rattle.state_store.specs.Finding.{EndsTesting};
ghost use Rattle.state_store.specs.Store.{AreDevices};
ghost use Rattle.state_store.specs.Rest.{IsInUse, IsUsed, device_size};

use crate::layout::{FIRST_GATE, PHASE, SLOT_SIZE};
use crate::load::MAGIC;
use crate::store::LoadError;
use flash_store::{byte_at, stand_at};
use gate_slot::OPEN;
use urna_outside::{Dev, Machine};

/// Whether a slot is open over the body of a poll that was opened or sealed.
#[tactic(auto, using(flash_store::proofs::Looking::looked_twice))]
fn is_used<M: Machine>(m: &mut M, dev: Dev, index: u8) -> Result<bool, Dev>
    requires index { index < 2 }
    requires size { size_of dev (M.told m.old).sizes ≡ device_size }
    ensures used { IfOk result (λ used. ForSome (M.told m.old).flashes
        (λ flashes. IsTrue used ↔ IsUsed index (flash_of dev flashes).content)) }
    ensures dev { IfErr result (λ failed. failed ≡ dev) }
    ensures done { Does [] (M.told m.old) (M.told m.new) }
    ensures fails { FailsAt port_of result (M.told m.old) (M.told m.new) }
{
    let gate = FIRST_GATE + u32::from(index) * SLOT_SIZE;
    if byte_at(m, dev, gate)? != OPEN {
        return Ok(false);
    }
    let phase = byte_at(m, dev, gate + PHASE)?;
    Ok(phase == 1 || phase == 2)
}

/// Whether a device is in use: it begins with the magic, and one of its slots is used. It reads and does nothing else.
///
/// The caller owes that the device has the size of a flash. The device is answered only where its count of faults rose.
#[tactic(auto, using(flash_store::proofs::Looking::looked_twice))]
pub fn is_in_use<M: Machine>(m: &mut M, dev: Dev) -> Result<bool, Dev>
    requires { size_of dev (M.told m.old).sizes ≡ device_size }
    ensures used { IfOk result (λ used. ForSome (M.told m.old).flashes
        (λ flashes. IsTrue used ↔ IsInUse (flash_of dev flashes).content)) }
    ensures dev { IfErr result (λ failed. failed ≡ dev) }
    ensures done { Does [] (M.told m.old) (M.told m.new) }
    ensures fails { FailsAt port_of result (M.told m.old) (M.told m.new) }
{
    if !stand_at(m, dev, 0, &MAGIC)? {
        return Ok(false);
    }
    if is_used(m, dev, 0)? {
        return Ok(true);
    }
    let second = is_used(m, dev, 1)?;
    Ok(second)
}

/// Whether neither device is in use, Internal tested first. It reads and does nothing else.
pub(crate) fn test_free<M: Machine>(m: &mut M) -> Result<(), LoadError>
    requires { AreDevices (M.told m.old).sizes }
    ensures free { OnOk result (ForSome (M.told m.old).flashes AreFree) }
    ensures done { Does [] (M.told m.old) (M.told m.new) }
    ensures fine { OnOk result (IsFaultless (M.told m.old) (M.told m.new)) }
    ensures fails { IfErr result (EndsTesting (M.told m.old) (M.told m.new)) }
{
    match is_in_use(m, Dev::Internal) {
        Ok(false) => {}
        Ok(true) => return Err(LoadError::Busy(Dev::Internal)),
        Err(dev) => return Err(LoadError::Flash(dev)),
    }
    match is_in_use(m, Dev::External) {
        Ok(false) => Ok(()),
        Ok(true) => Err(LoadError::Busy(Dev::External)),
        Err(dev) => Err(LoadError::Flash(dev)),
    }
}
