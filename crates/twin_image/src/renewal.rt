//! A slot, and both slots of a device, are brought to a new body.
ghost use Rattle.std.specs.Prelude.{◌≡◌, ℕ, ◌+◌, ◌*◌, ◌<◌, ◌≤◌, List, length, IfOk, IfErr, OnOk, OnErr};
ghost use Rattle.std.specs.Option.{ForSome};
ghost use Rattle.urna_outside.specs.Flash.{IsClean};
ghost use Rattle.urna_outside.specs.Faults.{FailsAt};
ghost use Rattle.urna_outside.specs.Told.{Does, Runs, port_of, size_of};
ghost use Rattle.gate_slot.specs.Device.{OnFlash, KeepsRest};
ghost use Rattle.gate_slot.specs.Front.{IsFrontOf, RunsUpTo};
ghost use Rattle.gate_slot.specs.Page.{AreChanges, IsPatch};
ghost use Rattle.gate_slot.specs.Slot.{HasBody, IsBody, IsGateShut, room, body_in};
ghost use Rattle.gate_slot.specs.Token.{slot_of_filled, slot_of_live, slot_of_shut, IsTornAt, torn_port};
ghost use Rattle.gate_slot.specs.declared.slot.Step.TheVariants.{Filling};
ghost use Rattle.twin_image.specs.Cut.{IsRenewalCutIn, IsTurnCutIn};
ghost use Rattle.twin_image.specs.Order.{IsRenewal, IsTurn};
ghost use Rattle.twin_image.specs.Pair.{AreOf};
ghost use Rattle.twin_image.specs.Rewrite.{PutsAtMost, rewrite_bytes, rewrite_ops};
ghost use Rattle.twin_image.specs.Twin.{IsLive, IsOfTwin, IsTwin, Renews, StepLeaves, Turns, turning_ops};

use gate_slot::{Changes, Filled, Live, PAGE_SIZE, Shut, Slot, Torn};
use urna_outside::{Dev, Machine};

/// Shuts a slot, fills it with a body and publishes it, whatever the slot held.
pub(crate) fn turn<M: Machine, const SIZE: usize>(
    m: &mut M,
    slot: Slot<SIZE>,
    new: &[u8],
) -> Result<Live<SIZE>, Torn<SIZE>>
    requires index { slot.index < 2 }
    requires room { room SIZE ≤ size_of slot.dev (M.told m.old).sizes }
    requires new { length new.now ≡ SIZE }
    requires clean { OnFlash slot.dev IsClean (M.told m.old) }

    ensures slot { IfOk result (λ live. slot_of_live live ≡ slot.entry) }
    ensures live { OnOk result (OnFlash slot.entry.dev (IsLive SIZE slot.entry.index new.now) (M.told m.new)) }
    ensures clean { OnOk result (OnFlash slot.entry.dev IsClean (M.told m.new)) }

    ensures torn_slot { IfErr result (λ torn. torn.slot ≡ slot.entry) }
    ensures torn { IfErr result (λ torn. (old : List ℕ)
        → OnFlash slot.entry.dev (HasBody SIZE slot.entry.index old) (M.told m.old)
        → OnFlash slot.entry.dev (StepLeaves torn.step SIZE slot.entry.index old new.now) (M.told m.new)) }

    ensures ran { Runs (Turns (M.told m.old) slot.entry.dev SIZE slot.entry.index new.now) (M.told m.old) (M.told m.new) }
    ensures exact { OnOk result (OnFlash slot.entry.dev
        (λ flash. Does (turning_ops SIZE slot.entry.dev slot.entry.index new.now flash.content)
        (M.told m.old) (M.told m.new))
        (M.told m.old)) }
    ensures cut { OnErr result (OnFlash slot.entry.dev
        (λ flash. Runs (IsFrontOf (turning_ops SIZE slot.entry.dev slot.entry.index new.now flash.content))
        (M.told m.old) (M.told m.new))
        (M.told m.old)) }
    ensures fails { FailsAt torn_port result (M.told m.old) (M.told m.new) }
{
    let shut = slot.shut(m)?;
    let filled = shut.fill(m, new)?;
    filled.publish(m)
}

/// Brings a body over the one that a shut slot has: by the pages that change, where a body is whole pages.
fn rewrite<M: Machine, const SIZE: usize>(
    m: &mut M,
    shut: Shut<SIZE>,
    old: &[u8],
    new: &[u8],
    changes: &Changes,
) -> Result<Filled<SIZE>, Torn<SIZE>>
    requires index { (slot_of_shut shut).index < 2 }
    requires room { room SIZE ≤ size_of (slot_of_shut shut).dev (M.told m.old).sizes }
    requires old { length old.now ≡ SIZE }
    requires new { length new.now ≡ SIZE }
    requires changes { AreChanges changes.now old.now new.now }
    requires shut { OnFlash (slot_of_shut shut).dev (IsGateShut SIZE (slot_of_shut shut).index) (M.told m.old) }
    requires body { OnFlash (slot_of_shut shut).dev
        (λ flash. body_in SIZE (slot_of_shut shut).index flash.content ≡ old.now) (M.told m.old) }

    ensures slot { IfOk result (λ filled. slot_of_filled filled ≡ slot_of_shut shut.entry) }
    ensures torn { IfErr result (IsTornAt (slot_of_shut shut.entry) Filling) }
    ensures body { OnOk result (OnFlash (slot_of_shut shut.entry).dev
        (HasBody SIZE (slot_of_shut shut.entry).index new.now) (M.told m.new)) }
    ensures shut { OnFlash (slot_of_shut shut.entry).dev
        (IsGateShut SIZE (slot_of_shut shut.entry).index) (M.told m.new) }

    ensures ran { Runs (IsPatch (slot_of_shut shut.entry).dev (IsBody SIZE (slot_of_shut shut.entry).index)
        (rewrite_bytes SIZE old.now new.now)) (M.told m.old) (M.told m.new) }
    ensures exact { OnOk result (Does
        (rewrite_ops SIZE (slot_of_shut shut.entry).dev (slot_of_shut shut.entry).index old.now new.now)
        (M.told m.old) (M.told m.new)) }
    ensures cut { OnErr result (Runs
        (IsFrontOf (rewrite_ops SIZE (slot_of_shut shut.entry).dev (slot_of_shut shut.entry).index old.now new.now))
        (M.told m.old) (M.told m.new)) }
    ensures fails { FailsAt torn_port result (M.told m.old) (M.told m.new) }
{
    if SIZE % PAGE_SIZE == 0 {
        shut.patch_found(m, old, new, changes)
    } else {
        shut.fill(m, new)
    }
}

/// Brings a slot that is live with one body to another one: shuts it, brings the new body over the old one and
/// publishes it.
pub(crate) fn turn_over<M: Machine, const SIZE: usize>(
    m: &mut M,
    slot: Slot<SIZE>,
    old: &[u8],
    new: &[u8],
    changes: &Changes,
) -> Result<Live<SIZE>, Torn<SIZE>>
    requires index { slot.index < 2 }
    requires room { room SIZE ≤ size_of slot.dev (M.told m.old).sizes }
    requires old { length old.now ≡ SIZE }
    requires new { length new.now ≡ SIZE }
    requires changes { AreChanges changes.now old.now new.now }
    requires clean { OnFlash slot.dev IsClean (M.told m.old) }
    requires live { OnFlash slot.dev (IsLive SIZE slot.index old.now) (M.told m.old) }

    ensures slot { IfOk result (λ live. slot_of_live live ≡ slot.entry) }
    ensures live { OnOk result (OnFlash slot.entry.dev (IsLive SIZE slot.entry.index new.now) (M.told m.new)) }
    ensures clean { OnOk result (OnFlash slot.entry.dev IsClean (M.told m.new)) }

    ensures torn_slot { IfErr result (λ torn. torn.slot ≡ slot.entry) }
    ensures torn { IfErr result (λ torn. OnFlash slot.entry.dev
        (StepLeaves torn.step SIZE slot.entry.index old.now new.now) (M.told m.new)) }

    ensures ran { Runs (Turns (M.told m.old) slot.entry.dev SIZE slot.entry.index new.now) (M.told m.old) (M.told m.new) }
    ensures bytes { Runs (PutsAtMost (rewrite_bytes SIZE old.now new.now + 2)) (M.told m.old) (M.told m.new) }
    ensures order { ForSome (M.told m.old).flashes (λ start. RunsUpTo result
        (IsTurn SIZE slot.entry.dev slot.entry.index old.now new.now) (M.told m.old) (M.told m.new)) }
    ensures cut { IfErr result (λ torn. ForSome (M.told m.old).flashes (λ start.
        Runs (IsTurnCutIn SIZE slot.entry.dev slot.entry.index old.now new.now torn.step)
        (M.told m.old) (M.told m.new))) }
    ensures fails { FailsAt torn_port result (M.told m.old) (M.told m.new) }
{
    let shut = slot.shut(m)?;
    let filled = rewrite(m, shut, old, new, changes)?;
    filled.publish(m)
}

/// Brings slot 0 and then slot 1 of a device to a new body: each is shut, the new body is brought over the old one, and
/// it is published. Where SIZE is a multiple of PAGE_SIZE, only the pages that change are written.
///
/// The caller owes that the tokens are those of slots 0 and 1 of one device with no dirty byte, and that both bodies
/// are `old`, where the machine tells its content; both bodies have SIZE bytes. At every stop each slot whose gate is
/// open has the body `old` or `new`, and at least one slot is open. It writes nothing but the gates and bodies of these
/// two slots. `Torn` comes only where the device's count rose. It names the slot and the step that were cut off, and its
/// step says what holds of its slot.
pub fn renew<M: Machine, const SIZE: usize>(
    m: &mut M,
    first: Live<SIZE>,
    second: Live<SIZE>,
    old: &[u8],
    new: &[u8],
) -> Result<(Live<SIZE>, Live<SIZE>), Torn<SIZE>>
    requires pair { AreOf (slot_of_live first).dev first second }
    requires room { room SIZE ≤ size_of (slot_of_live first).dev (M.told m.old).sizes }
    requires old { length old.now ≡ SIZE }
    requires new { length new.now ≡ SIZE }
    requires clean { OnFlash (slot_of_live first).dev IsClean (M.told m.old) }
    requires twin { OnFlash (slot_of_live first).dev (IsTwin SIZE old.now) (M.told m.old) }

    ensures pair { IfOk result (λ lives. AreOf (slot_of_live first.entry).dev lives.0 lives.1) }
    ensures twin { OnOk result (OnFlash (slot_of_live first.entry).dev (IsTwin SIZE new.now) (M.told m.new)) }
    ensures clean { OnOk result (OnFlash (slot_of_live first.entry).dev IsClean (M.told m.new)) }

    ensures torn_dev { IfErr result (λ torn. torn.slot.dev ≡ (slot_of_live first.entry).dev) }
    ensures torn_index { IfErr result (λ torn. torn.slot.index < 2) }
    ensures torn { IfErr result (λ torn. OnFlash (slot_of_live first.entry).dev
        (StepLeaves torn.step SIZE torn.slot.index old.now new.now) (M.told m.new)) }

    ensures ran { Runs (Renews (M.told m.old) (slot_of_live first.entry).dev SIZE old.now new.now)
        (M.told m.old) (M.told m.new) }
    ensures bytes { Runs (PutsAtMost (2 * (rewrite_bytes SIZE old.now new.now + 2))) (M.told m.old) (M.told m.new) }
    ensures order { ForSome (M.told m.old).flashes (λ start.
        RunsUpTo result (IsRenewal SIZE (slot_of_live first.entry).dev old.now new.now) (M.told m.old) (M.told m.new)) }
    ensures cut { IfErr result (λ torn. ForSome (M.told m.old).flashes (λ start.
        Runs (IsRenewalCutIn SIZE (slot_of_live first.entry).dev old.now new.now torn.slot.index torn.step)
        (M.told m.old) (M.told m.new))) }
    ensures rest { KeepsRest (slot_of_live first.entry).dev (IsOfTwin SIZE) (M.told m.old) (M.told m.new) }
    ensures fails { FailsAt torn_port result (M.told m.old) (M.told m.new) }
{
    renew_found(m, first, second, old, new, &Changes::of(old, new))
}

/// Renews the two slots of a device, as `renew` does, by the pages that were found before to change.
///
/// The caller owes what `renew` asks for, and that `changes` are those of these two bodies.
fn renew_found<M: Machine, const SIZE: usize>(
    m: &mut M,
    first: Live<SIZE>,
    second: Live<SIZE>,
    old: &[u8],
    new: &[u8],
    changes: &Changes,
) -> Result<(Live<SIZE>, Live<SIZE>), Torn<SIZE>>
    requires pair { AreOf (slot_of_live first).dev first second }
    requires room { room SIZE ≤ size_of (slot_of_live first).dev (M.told m.old).sizes }
    requires old { length old.now ≡ SIZE }
    requires new { length new.now ≡ SIZE }
    requires changes { AreChanges changes.now old.now new.now }
    requires clean { OnFlash (slot_of_live first).dev IsClean (M.told m.old) }
    requires twin { OnFlash (slot_of_live first).dev (IsTwin SIZE old.now) (M.told m.old) }

    ensures pair { IfOk result (λ lives. AreOf (slot_of_live first.entry).dev lives.0 lives.1) }
    ensures twin { OnOk result (OnFlash (slot_of_live first.entry).dev (IsTwin SIZE new.now) (M.told m.new)) }
    ensures clean { OnOk result (OnFlash (slot_of_live first.entry).dev IsClean (M.told m.new)) }

    ensures torn_dev { IfErr result (λ torn. torn.slot.dev ≡ (slot_of_live first.entry).dev) }
    ensures torn_index { IfErr result (λ torn. torn.slot.index < 2) }
    ensures torn { IfErr result (λ torn. OnFlash (slot_of_live first.entry).dev
        (StepLeaves torn.step SIZE torn.slot.index old.now new.now) (M.told m.new)) }

    ensures ran { Runs (Renews (M.told m.old) (slot_of_live first.entry).dev SIZE old.now new.now)
        (M.told m.old) (M.told m.new) }
    ensures bytes { Runs (PutsAtMost (2 * (rewrite_bytes SIZE old.now new.now + 2))) (M.told m.old) (M.told m.new) }
    ensures order { ForSome (M.told m.old).flashes (λ start.
        RunsUpTo result (IsRenewal SIZE (slot_of_live first.entry).dev old.now new.now) (M.told m.old) (M.told m.new)) }
    ensures cut { IfErr result (λ torn. ForSome (M.told m.old).flashes (λ start.
        Runs (IsRenewalCutIn SIZE (slot_of_live first.entry).dev old.now new.now torn.slot.index torn.step)
        (M.told m.old) (M.told m.new))) }
    ensures rest { KeepsRest (slot_of_live first.entry).dev (IsOfTwin SIZE) (M.told m.old) (M.told m.new) }
    ensures fails { FailsAt torn_port result (M.told m.old) (M.told m.new) }
{
    let first_new = turn_over(m, first.slot(), old, new, changes)?;
    let second_new = turn_over(m, second.slot(), old, new, changes)?;
    Ok((first_new, second_new))
}

/// Renews the two slots of a device, as `renew` does, by the pages that were found before to change. The device is answered
/// only where its count rose.
///
/// The caller owes what `renew` asks for, of this device, and that `changes` are those of these two bodies.
pub fn renew_on<M: Machine, const SIZE: usize>(
    m: &mut M,
    dev: Dev,
    lives: (Live<SIZE>, Live<SIZE>),
    old: &[u8],
    new: &[u8],
    changes: &Changes,
) -> Result<(Live<SIZE>, Live<SIZE>), Dev>
    requires pair { AreOf dev lives.0 lives.1 }
    requires room { room SIZE ≤ size_of dev (M.told m.old).sizes }
    requires old { length old.now ≡ SIZE }
    requires new { length new.now ≡ SIZE }
    requires changes { AreChanges changes.now old.now new.now }
    requires clean { OnFlash dev IsClean (M.told m.old) }
    requires twin { OnFlash dev (IsTwin SIZE old.now) (M.told m.old) }

    ensures pair { IfOk result (λ lives. AreOf dev lives.0 lives.1) }
    ensures twin { OnOk result (OnFlash dev (IsTwin SIZE new.now) (M.told m.new)) }
    ensures clean { OnOk result (OnFlash dev IsClean (M.told m.new)) }
    ensures dev { IfErr result (λ failed. failed ≡ dev) }

    ensures ran { Runs (Renews (M.told m.old) dev SIZE old.now new.now) (M.told m.old) (M.told m.new) }
    ensures bytes { Runs (PutsAtMost (2 * (rewrite_bytes SIZE old.now new.now + 2))) (M.told m.old) (M.told m.new) }
    ensures order { ForSome (M.told m.old).flashes
        (λ start. RunsUpTo result (IsRenewal SIZE dev old.now new.now) (M.told m.old) (M.told m.new)) }
    ensures fails { FailsAt port_of result (M.told m.old) (M.told m.new) }
{
    let (first, second) = lives;
    match renew_found(m, first, second, old, new, changes) {
        Ok(renewed) => Ok(renewed),
        Err(_) => Err(dev),
    }
}
