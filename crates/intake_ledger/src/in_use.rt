//! Whether a device is in use, so that no empty ledger may be laid over it.
ghost use Rattle.std.specs.Prelude.{◌≡◌, ◌<◌, ◌+◌, ◌≤◌, ◌↔◌, [], IsTrue, IfOk, IfErr, OnOk};
ghost use Rattle.std.specs.Int.{w32, from_be_bytes};
ghost use Rattle.std.specs.Option.{ForSome};
ghost use Rattle.urna_outside.specs.Faults.{FailsAt, IsFaultless};
ghost use Rattle.urna_outside.specs.Flash.{flash_of, part};
ghost use Rattle.urna_outside.specs.Told.{Does, port_of, size_of};
ghost use Rattle.intake_ledger.specs.Calls.{EndsTesting};
ghost use Rattle.intake_ledger.specs.Kept.{AreDevices, AreFree, IsInUse, IsUsed, device_size};

use crate::header::MAGIC;
use crate::layout::{FIRST_GATE, NUMBER, SLOT_SIZE};
use crate::ledger::LedgerError;
use flash_store::{byte_at, stand_at};
use gate_slot::OPEN;
use urna_base::be32;
use urna_outside::{Dev, Machine};

/// The number that four bytes of a device write from an offset on. It reads and does nothing else.
fn number_at<M: Machine>(m: &mut M, dev: Dev, at: u32) -> Result<u32, Dev>
    requires { at + 4 ≤ size_of dev (M.told m.old).sizes }
    ensures number { IfOk result (λ number. ForSome (M.told m.old).flashes
        (λ flashes. number ≡ from_be_bytes w32 (part (flash_of dev flashes).content at 4))) }
    ensures dev { IfErr result (λ failed. failed ≡ dev) }
    ensures done { Does [] (M.told m.old) (M.told m.new) }
    ensures fails { FailsAt port_of result (M.told m.old) (M.told m.new) }
{
    let mut bytes = [0; 4];
    match m.read(dev, at, &mut bytes) {
        Ok(()) => Ok(be32(bytes)),
        Err(_) => Err(dev),
    }
}

/// Whether a slot is open over the body of a ledger with a report.
#[tactic(auto, using(flash_store::proofs::Looking::looked_twice))]
fn is_used<M: Machine>(m: &mut M, dev: Dev, index: u8) -> Result<bool, Dev>
    requires index { index < 2 }
    requires size { size_of dev (M.told m.old).sizes ≡ device_size }
    ensures used { IfOk result (λ used. ForSome (M.told m.old).flashes
        (λ flashes. IsTrue used ↔ IsUsed index (flash_of dev flashes).content)) }
    ensures dev { IfErr result (λ failed. failed ≡ dev) }
    ensures done { Does [] (M.told m.old) (M.told m.new) }
    ensures fails { FailsAt port_of result (M.told m.old) (M.told m.new) }
{
    let gate = FIRST_GATE + u32::from(index) * SLOT_SIZE;
    if byte_at(m, dev, gate)? != OPEN {
        return Ok(false);
    }
    let number = number_at(m, dev, gate + NUMBER)?;
    Ok(number != 0)
}

/// Whether a device is in use: it begins with the magic, and one of its slots is used. It reads and does nothing else.
#[tactic(auto, using(flash_store::proofs::Looking::looked_twice))]
fn is_in_use<M: Machine>(m: &mut M, dev: Dev) -> Result<bool, Dev>
    requires { size_of dev (M.told m.old).sizes ≡ device_size }
    ensures used { IfOk result (λ used. ForSome (M.told m.old).flashes
        (λ flashes. IsTrue used ↔ IsInUse (flash_of dev flashes).content)) }
    ensures dev { IfErr result (λ failed. failed ≡ dev) }
    ensures done { Does [] (M.told m.old) (M.told m.new) }
    ensures fails { FailsAt port_of result (M.told m.old) (M.told m.new) }
{
    if !stand_at(m, dev, 0, &MAGIC)? {
        return Ok(false);
    }
    if is_used(m, dev, 0)? {
        return Ok(true);
    }
    let second = is_used(m, dev, 1)?;
    Ok(second)
}

/// Whether neither device is in use, Internal tested first: no error where neither is. It reads and does nothing else.
pub(crate) fn test_free<M: Machine>(m: &mut M) -> Result<(), LedgerError>
    requires { AreDevices (M.told m.old).sizes }
    ensures free { OnOk result (ForSome (M.told m.old).flashes AreFree) }
    ensures done { Does [] (M.told m.old) (M.told m.new) }
    ensures fine { OnOk result (IsFaultless (M.told m.old) (M.told m.new)) }
    ensures fails { IfErr result (EndsTesting (M.told m.old) (M.told m.new)) }
{
    match is_in_use(m, Dev::Internal) {
        Ok(false) => {}
        Ok(true) => return Err(LedgerError::Busy(Dev::Internal)),
        Err(dev) => return Err(LedgerError::Flash(dev)),
    }
    match is_in_use(m, Dev::External) {
        Ok(false) => Ok(()),
        Ok(true) => Err(LedgerError::Busy(Dev::External)),
        Err(dev) => Err(LedgerError::Flash(dev)),
    }
}
