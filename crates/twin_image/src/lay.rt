//! A device is loaded: its slots are shut and filled, its frame is written, its slots are published.
ghost use Rattle.std.specs.Prelude.{◌≡◌, ◌≤◌, ◌∷◌, ◌++◌, List, length, IfOk, IfErr, OnOk, OnErr};
ghost use Rattle.urna_outside.specs.Flash.{IsClean, Op, flash_of};
ghost use Rattle.urna_outside.specs.Faults.{FailsAt};
ghost use Rattle.urna_outside.specs.Stage.{Stage};
ghost use Rattle.urna_outside.specs.Stop.{left_on};
ghost use Rattle.urna_outside.specs.Told.{Does, Runs, port_of, size_of};
ghost use Rattle.gate_slot.specs.Device.{OnFlash};
ghost use Rattle.gate_slot.specs.Front.{IsFrontOf};
ghost use Rattle.gate_slot.specs.Slot.{fill_ops, header_size, publish_ops, room};
ghost use Rattle.gate_slot.specs.Token.{slot_of_shut, slot_of_filled, torn_port};
ghost use Rattle.twin_image.specs.Frame.{FrameStands, IsOfFrame, padding};
ghost use Rattle.twin_image.specs.Lay.{IsEarly, IsOfBodies, IsOfGates, LaysOn, WritesOnly, frame_ops, lay_ops};
ghost use Rattle.twin_image.specs.Pair.{AreFilled, AreOf, AreOpen, AreShut, AreSlots, HaveBody};
ghost use Rattle.twin_image.specs.Twin.{IsOfTwin, IsTwin, shutting_ops};

use gate_slot::{Filled, Live, PADDING_SIZE, Shut, Slot, Torn};
use urna_outside::{Dev, Failed, Machine};

/// Shuts both slots of a device.
fn shut_both<M: Machine, const SIZE: usize>(
    m: &mut M,
    dev: Dev,
) -> Result<(Shut<SIZE>, Shut<SIZE>), Torn<SIZE>>
    requires room { room SIZE ≤ size_of dev (M.told m.old).sizes }
    requires clean { OnFlash dev IsClean (M.told m.old) }

    ensures slots { IfOk result (λ shut. AreSlots dev (slot_of_shut shut.0) (slot_of_shut shut.1)) }
    ensures shut { OnOk result (OnFlash dev (AreShut SIZE) (M.told m.new)) }
    ensures clean { OnOk result (OnFlash dev IsClean (M.told m.new)) }
    ensures exact { OnOk result (OnFlash dev
        (λ flash. Does (shutting_ops SIZE dev 0 flash.content ++ shutting_ops SIZE dev 1 flash.content)
        (M.told m.old) (M.told m.new))
        (M.told m.old)) }
    // Where neither gate reads open there is nothing to do, so a front of it is one with whatever follows.
    ensures cut { OnErr result (OnFlash dev
        (λ flash. (next : Op) (more : List Op)
        → Runs (IsFrontOf (shutting_ops SIZE dev 0 flash.content ++ shutting_ops SIZE dev 1 flash.content ++ next ∷ more))
        (M.told m.old) (M.told m.new))
        (M.told m.old)) }
    ensures torn { IfErr result (λ torn. torn.slot.dev ≡ dev) }
    ensures ran { Runs (Stage (M.told m.old) dev (IsOfTwin SIZE) 2
        (λ start left. IsEarly SIZE (flash_of dev start).content (left_on dev left))) (M.told m.old) (M.told m.new) }
    ensures fails { FailsAt torn_port result (M.told m.old) (M.told m.new) }
{
    let first = Slot { dev, index: 0 }.shut(m)?;
    let second = Slot { dev, index: 1 }.shut(m)?;
    Ok((first, second))
}

/// Fills both slots of a device with a body.
fn fill_both<M: Machine, const SIZE: usize>(
    m: &mut M,
    dev: Dev,
    shut: (Shut<SIZE>, Shut<SIZE>),
    body: &[u8],
) -> Result<(Filled<SIZE>, Filled<SIZE>), Torn<SIZE>>
    requires slots { AreSlots dev (slot_of_shut shut.0) (slot_of_shut shut.1) }
    requires room { room SIZE ≤ size_of dev (M.told m.old).sizes }
    requires body { length body.now ≡ SIZE }
    requires shut { OnFlash dev (AreShut SIZE) (M.told m.old) }

    ensures slots { IfOk result (λ filled. AreSlots dev (slot_of_filled filled.0) (slot_of_filled filled.1)) }
    ensures body { OnOk result (OnFlash dev (HaveBody SIZE body.now) (M.told m.new)) }
    ensures shut { OnOk result (OnFlash dev (AreShut SIZE) (M.told m.new)) }
    ensures exact { OnOk result (Does (fill_ops SIZE dev 0 body.now ++ fill_ops SIZE dev 1 body.now)
        (M.told m.old) (M.told m.new)) }
    ensures cut { OnErr result (Runs (IsFrontOf (fill_ops SIZE dev 0 body.now ++ fill_ops SIZE dev 1 body.now))
        (M.told m.old) (M.told m.new)) }
    ensures torn { IfErr result (λ torn. torn.slot.dev ≡ dev) }
    ensures ran { Runs (WritesOnly dev (IsOfBodies SIZE) 2) (M.told m.old) (M.told m.new) }
    ensures fails { FailsAt torn_port result (M.told m.old) (M.told m.new) }
{
    let first = shut.0.fill(m, body)?;
    let second = shut.1.fill(m, body)?;
    Ok((first, second))
}

/// The bytes behind a gate.
fn zeros() -> [u8; PADDING_SIZE]
    ensures { result ≡ padding }
{
    [0; PADDING_SIZE]
}

/// Writes the frame of a device and syncs it.
fn write_frame<M: Machine, const SIZE: usize>(
    m: &mut M,
    dev: Dev,
    header: &[u8],
) -> Result<(), Failed>
    requires room { room SIZE ≤ size_of dev (M.told m.old).sizes }
    requires header { length header.now ≡ header_size }

    ensures stands { OnOk result (OnFlash dev (FrameStands SIZE header.now) (M.told m.new)) }
    ensures exact { OnOk result (Does (frame_ops SIZE dev header.now) (M.told m.old) (M.told m.new)) }
    ensures cut { OnErr result (Runs (IsFrontOf (frame_ops SIZE dev header.now)) (M.told m.old) (M.told m.new)) }
    ensures ran { Runs (WritesOnly dev (IsOfFrame SIZE) 1) (M.told m.old) (M.told m.new) }
    ensures fails { FailsAt (λ failed. port_of dev) result (M.told m.old) (M.told m.new) }
{
    let size = m.size(dev);
    let padding = zeros();
    m.write(dev, 0, header)?;
    m.write(dev, Slot::<SIZE> { dev, index: 0 }.padding(size), &padding)?;
    m.write(dev, Slot::<SIZE> { dev, index: 1 }.padding(size), &padding)?;
    m.sync(dev)
}

/// Publishes both slots of a device.
fn publish_both<M: Machine, const SIZE: usize>(
    m: &mut M,
    dev: Dev,
    filled: (Filled<SIZE>, Filled<SIZE>),
) -> Result<(Live<SIZE>, Live<SIZE>), Torn<SIZE>>
    requires slots { AreSlots dev (slot_of_filled filled.0) (slot_of_filled filled.1) }
    requires room { room SIZE ≤ size_of dev (M.told m.old).sizes }
    requires filled { OnFlash dev (AreFilled SIZE) (M.told m.old) }

    ensures pair { IfOk result (λ lives. AreOf dev lives.0 lives.1) }
    ensures opened { OnOk result (OnFlash dev (AreOpen SIZE) (M.told m.new)) }
    ensures clean { OnOk result (OnFlash dev IsClean (M.told m.new)) }
    ensures exact { OnOk result (Does (publish_ops SIZE dev 0 ++ publish_ops SIZE dev 1)
        (M.told m.old) (M.told m.new)) }
    ensures cut { OnErr result (Runs (IsFrontOf (publish_ops SIZE dev 0 ++ publish_ops SIZE dev 1))
        (M.told m.old) (M.told m.new)) }
    ensures torn { IfErr result (λ torn. torn.slot.dev ≡ dev) }
    ensures ran { Runs (WritesOnly dev (IsOfGates SIZE) 2) (M.told m.old) (M.told m.new) }
    ensures fails { FailsAt torn_port result (M.told m.old) (M.told m.new) }
{
    let first = filled.0.publish(m)?;
    let second = filled.1.publish(m)?;
    Ok((first, second))
}

/// Loads a device: both slots are shut, both are filled with the body, the header and the zeros behind the gates are
/// written and synced, and both slots are published. Until its frame is written no slot is open that wasn't, and from
/// then on each open slot has the body and the frame is whole.
///
/// The caller owes that the device has no dirty byte, a header of HEADER_SIZE bytes and a body of SIZE. The device is
/// answered only where its count rose.
pub fn lay_on<M: Machine, const SIZE: usize>(
    m: &mut M,
    dev: Dev,
    header: &[u8],
    body: &[u8],
) -> Result<(Live<SIZE>, Live<SIZE>), Dev>
    requires room { room SIZE ≤ size_of dev (M.told m.old).sizes }
    requires clean { OnFlash dev IsClean (M.told m.old) }
    requires header { length header.now ≡ header_size }
    requires body { length body.now ≡ SIZE }

    ensures pair { IfOk result (λ lives. AreOf dev lives.0 lives.1) }
    ensures twin { OnOk result (OnFlash dev (IsTwin SIZE body.now) (M.told m.new)) }
    ensures frame { OnOk result (OnFlash dev (FrameStands SIZE header.now) (M.told m.new)) }
    ensures clean { OnOk result (OnFlash dev IsClean (M.told m.new)) }
    ensures dev { IfErr result (λ failed. failed ≡ dev) }
    ensures exact { OnOk result (OnFlash dev
        (λ flash. Does (lay_ops SIZE dev header.now body.now flash.content) (M.told m.old) (M.told m.new))
        (M.told m.old)) }
    ensures cut { OnErr result (OnFlash dev
        (λ flash. Runs (IsFrontOf (lay_ops SIZE dev header.now body.now flash.content)) (M.told m.old) (M.told m.new))
        (M.told m.old)) }
    ensures ran { Runs (LaysOn (M.told m.old) dev SIZE header.now body.now) (M.told m.old) (M.told m.new) }
    ensures fails { FailsAt port_of result (M.told m.old) (M.told m.new) }
{
    let Ok(shut) = shut_both(m, dev) else {
        return Err(dev);
    };
    let Ok(filled) = fill_both(m, dev, shut, body) else {
        return Err(dev);
    };
    let Ok(()) = write_frame::<M, SIZE>(m, dev, header) else {
        return Err(dev);
    };
    match publish_both(m, dev, filled) {
        Ok(lives) => Ok(lives),
        Err(_) => Err(dev),
    }
}
