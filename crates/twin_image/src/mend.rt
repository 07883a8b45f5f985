//! Slots are brought to the body that is held.
ghost use Rattle.std.specs.Prelude.{◌≡◌, [], ◌<◌, ◌≤◌, length, IfOk, IfErr, OnErr, OnOk};
ghost use Rattle.urna_outside.specs.Flash.{IsClean};
ghost use Rattle.urna_outside.specs.Faults.{FailsAt};
ghost use Rattle.urna_outside.specs.Told.{Does, Runs, port_of, size_of};
ghost use Rattle.gate_slot.specs.Device.{OnFlash};
ghost use Rattle.gate_slot.specs.Front.{IsUpTo};
ghost use Rattle.gate_slot.specs.Slot.{room};
ghost use Rattle.gate_slot.specs.Token.{slot_of_live};
ghost use Rattle.twin_image.specs.Heal.{AreMends, IsMend, Mends, MendsTwin};
ghost use Rattle.twin_image.specs.Pair.{AreOf};
ghost use Rattle.twin_image.specs.Twin.{IsLive, IsTwin};

use crate::renewal::turn;
use gate_slot::{Live, Slot, adopt};
use urna_outside::{Dev, Machine};

/// Takes a slot over that is live with a body, and otherwise brings it to that body.
fn mend<M: Machine, const SIZE: usize>(
    m: &mut M,
    slot: Slot<SIZE>,
    body: &[u8],
    buffer: &mut [u8],
) -> Result<Live<SIZE>, Dev>
    requires index { slot.index < 2 }
    requires room { room SIZE ≤ size_of slot.dev (M.told m.old).sizes }
    requires clean { OnFlash slot.dev IsClean (M.told m.old) }
    requires body { length body.now ≡ SIZE }
    requires buffer { length buffer.old ≡ SIZE }

    ensures slot { IfOk result (λ live. slot_of_live live ≡ slot.entry) }
    ensures live { OnOk result (OnFlash slot.entry.dev (IsLive SIZE slot.entry.index body.now) (M.told m.new)) }
    ensures clean { OnOk result (OnFlash slot.entry.dev IsClean (M.told m.new)) }
    ensures dev { IfErr result (λ dev. dev ≡ slot.entry.dev) }

    ensures ran { Runs (Mends (M.told m.old) slot.entry.dev SIZE slot.entry.index body.now) (M.told m.old) (M.told m.new) }
    ensures exact { OnOk result (OnFlash slot.entry.dev
        (λ flash. Runs (IsMend SIZE slot.entry.dev slot.entry.index body.now flash.content)
        (M.told m.old) (M.told m.new))
        (M.told m.old)) }
    ensures cut { OnErr result (OnFlash slot.entry.dev
        (λ flash. Runs (IsUpTo (IsMend SIZE slot.entry.dev slot.entry.index body.now flash.content))
        (M.told m.old) (M.told m.new))
        (M.told m.old)) }
    ensures idle { OnFlash slot.entry.dev
        (λ flash. IsLive SIZE slot.entry.index body.now flash → Does [] (M.told m.old) (M.told m.new)) (M.told m.old) }
    ensures fails { FailsAt port_of result (M.told m.old) (M.told m.new) }
{
    match adopt(m, slot, body, buffer) {
        Ok(Some(live)) => Ok(live),
        Ok(None) => match turn(m, slot, body) {
            Ok(live) => Ok(live),
            Err(torn) => Err(torn.slot.dev),
        },
        Err(dev) => Err(dev),
    }
}

/// Brings each slot of a device that isn't live with a body to it, slot 0 and then slot 1, and touches no other: it
/// shuts the slot, fills it and publishes it. By whatever ranks the device alone held this body, it holds it at each
/// stop.
///
/// The caller owes that the device has no dirty byte, and that `body` and `buffer` have SIZE bytes. `buffer` may then
/// hold anything. The device is answered only where its count rose.
pub fn mend_twin<M: Machine, const SIZE: usize>(
    m: &mut M,
    dev: Dev,
    body: &[u8],
    buffer: &mut [u8],
) -> Result<(Live<SIZE>, Live<SIZE>), Dev>
    requires room { room SIZE ≤ size_of dev (M.told m.old).sizes }
    requires clean { OnFlash dev IsClean (M.told m.old) }
    requires body { length body.now ≡ SIZE }
    requires buffer { length buffer.old ≡ SIZE }

    ensures pair { IfOk result (λ lives. AreOf dev lives.0 lives.1) }
    ensures twin { OnOk result (OnFlash dev (IsTwin SIZE body.now) (M.told m.new)) }
    ensures clean { OnOk result (OnFlash dev IsClean (M.told m.new)) }
    ensures dev { IfErr result (λ failed. failed ≡ dev) }

    ensures ran { Runs (MendsTwin (M.told m.old) dev SIZE body.now) (M.told m.old) (M.told m.new) }
    ensures exact { OnOk result (OnFlash dev
        (λ flash. Runs (AreMends SIZE dev body.now flash.content) (M.told m.old) (M.told m.new)) (M.told m.old)) }
    ensures cut { OnErr result (OnFlash dev
        (λ flash. Runs (IsUpTo (AreMends SIZE dev body.now flash.content)) (M.told m.old) (M.told m.new)) (M.told m.old)) }
    ensures idle { OnFlash dev
        (λ flash. IsTwin SIZE body.now flash → Does [] (M.told m.old) (M.told m.new)) (M.told m.old) }
    ensures fails { FailsAt port_of result (M.told m.old) (M.told m.new) }
{
    let first = mend(m, Slot { dev, index: 0 }, body, buffer)?;
    let second = mend(m, Slot { dev, index: 1 }, body, buffer)?;
    Ok((first, second))
}
