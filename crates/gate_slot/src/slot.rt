//! The states of a slot, as tokens.
ghost use Rattle.std.specs.Prelude.{◌≡◌, ◌≢◌, ◌==◌, ℕ, ◌*◌, ◌%◌, ◌<◌, ◌≤◌, List, [], length, IfOk, IfErr, IfSome, IfNone, OnSome, OnOk, OnErr};
ghost use Rattle.std.specs.Bool.{OnTrue};
ghost use Rattle.urna_outside.specs.Flash.{IsClean};
ghost use Rattle.urna_outside.specs.Faults.{FailsAt};
ghost use Rattle.urna_outside.specs.Told.{Does, Runs, size_of, port_of};
ghost use Rattle.gate_slot.specs.Device.{OnFlash, KeepsRest};
ghost use Rattle.gate_slot.specs.Front.{IsFrontOf};
ghost use Rattle.gate_slot.specs.Page.{AreChanges, IsOfChanged, IsPatch, changed_pages, page_size, patch_ops};
ghost use Rattle.gate_slot.specs.Slot.{room, IsGate, IsBody, IsGateShut, IsGateOpen, HasBody, IsFilled, IsOneWrite, open_gate, gate_in, body_in, shut_ops, fill_ops, publish_ops};
ghost use Rattle.gate_slot.specs.Token.{slot_of_live, IsTornAt, torn_port};
ghost use Rattle.gate_slot.specs.declared.slot.Step.TheVariants.{Shutting, Filling, Publishing};

use crate::changes::Changes;
use crate::write::{patch_through, write_through};
use urna_outside::{Dev, Machine};

/// The value of an open gate. Every other value counts as shut.
pub const OPEN: u8 = 0xA5;

/// The value that an open gate is shut with. It differs from OPEN in every bit.
const CLOSED: u8 = 0x5A;

/// The bytes of a header, behind which slot 0 begins.
pub const HEADER_SIZE: usize = 512;

/// The bytes of padding behind a gate.
pub const PADDING_SIZE: usize = 511;

/// The bytes of a slot before its body: its gate and its padding.
pub const FRONT_SIZE: usize = 1 + PADDING_SIZE;

/// A slot of a device, 0 or 1, with a body of SIZE bytes. `specs/Slot.antt` says where its gate and body stand.
#[derive(Clone, Copy, Debug, PartialEq, Eq)]
pub struct Slot<const SIZE: usize> {
    pub dev: Dev,
    pub index: u8,
}

/// The step that a slot's device failed in.
#[derive(Clone, Copy, Debug, PartialEq, Eq)]
pub enum Step {
    Shutting,
    Filling,
    Publishing,
}

/// A slot whose device failed, and the step in which it did. The count of that device rose.
///
/// It leaves the body as it was in Shutting, the gate shut in Filling, and the body stably the one that was filled
/// in in Publishing.
#[derive(Clone, Copy, Debug, PartialEq, Eq)]
pub struct Torn<const SIZE: usize> {
    pub slot: Slot<SIZE>,
    pub step: Step,
}

/// The slot's gate isn't open, whatever a power cut leaves.
#[derive(Debug, Drop)]
pub struct Shut<const SIZE: usize> {
    slot: Slot<SIZE>,
}

/// The slot's gate isn't open, and its body is the given one, whatever a power cut leaves.
#[derive(Debug, Drop)]
pub struct Filled<const SIZE: usize> {
    slot: Slot<SIZE>,
}

/// The slot's gate is open, whatever a power cut leaves.
#[derive(Debug, Drop)]
pub struct Live<const SIZE: usize> {
    slot: Slot<SIZE>,
}

impl<const SIZE: usize> Slot<SIZE> {
    ghost use Rattle.gate_slot.specs.Token.{slot_of_shut};
    ghost use Rattle.gate_slot.specs.Slot.{gate_offset, padding_offset, body_offset};

    /// The size of the slot's device keeps the sums within 32 bits.
    fn gate(&self, size: u32) -> u32
        requires index { self.now.index < 2 }
        requires room { room SIZE ≤ size }
        ensures { result ≡ gate_offset SIZE self.now.index }
    {
        HEADER_SIZE as u32 + u32::from(self.index) * (FRONT_SIZE + SIZE) as u32
    }

    fn body(&self, size: u32) -> u32
        requires index { self.now.index < 2 }
        requires room { room SIZE ≤ size }
        ensures { result ≡ body_offset SIZE self.now.index }
    {
        self.gate(size) + FRONT_SIZE as u32
    }

    /// Where the padding behind the slot's gate begins, on a device of that size: PADDING_SIZE bytes up to the body.
    pub fn padding(&self, size: u32) -> u32
        requires index { self.now.index < 2 }
        requires room { room SIZE ≤ size }
        ensures { result ≡ padding_offset SIZE self.now.index }
    {
        self.gate(size) + 1
    }

    /// The gate that is read.
    fn read_gate<M: Machine>(self, m: &mut M) -> Result<u8, Dev>
        requires index { self.index < 2 }
        requires room { room SIZE ≤ size_of self.dev (M.told m.old).sizes }
        ensures gate { IfOk result (λ gate. OnFlash self.entry.dev
            (λ flash. gate ≡ gate_in SIZE self.entry.index flash.content) (M.told m.old)) }
        ensures dev { IfErr result (λ dev. dev ≡ self.entry.dev) }
        ensures done { Does [] (M.told m.old) (M.told m.new) }
        ensures fails { FailsAt port_of result (M.told m.old) (M.told m.new) }
    {
        let mut gate = [0];
        match m.read(self.dev, self.gate(m.size(self.dev)), &mut gate) {
            Ok(()) => Ok(gate[0]),
            Err(_) => Err(self.dev),
        }
    }

    /// Whether the slot's gate reads open. Where it does, the slot's body is read into `into`, of SIZE bytes, which
    /// may else hold anything. It reads only, and answers the slot's device only where its count rose.
    pub fn read<M: Machine>(self, m: &mut M, into: &mut [u8]) -> Result<bool, Dev>
        requires index { self.index < 2 }
        requires room { room SIZE ≤ size_of self.dev (M.told m.old).sizes }
        requires into { length into.old ≡ SIZE }

        ensures gate { IfOk result (λ opened. OnFlash self.entry.dev
            (λ flash. opened ≡ (gate_in SIZE self.entry.index flash.content == open_gate)) (M.told m.old)) }
        ensures body { IfOk result (λ opened. OnTrue opened (OnFlash self.entry.dev
            (λ flash. into.new ≡ body_in SIZE self.entry.index flash.content) (M.told m.old))) }

        ensures dev { IfErr result (λ dev. dev ≡ self.entry.dev) }
        ensures done { Does [] (M.told m.old) (M.told m.new) }
        ensures fails { FailsAt port_of result (M.told m.old) (M.told m.new) }
    {
        if self.read_gate(m)? != OPEN {
            return Ok(false);
        }
        let at = self.body(m.size(self.dev));
        match m.read(self.dev, at, into) {
            Ok(()) => Ok(true),
            Err(_) => Err(self.dev),
        }
    }

    fn torn(self, step: Step) -> Torn<SIZE>
        ensures slot { result.slot ≡ self.entry }
        ensures step { result.step ≡ step }
    {
        Torn { slot: self, step }
    }

    /// Shuts the slot's gate where it reads open. A gate that reads otherwise is not written: if a power cut tore it,
    /// a second write could bring back the body under it.
    ///
    /// The caller owes that the device has no dirty byte, so that the gate that is read stands in every image.
    /// `Torn` comes only where the device's count rose.
    pub fn shut<M: Machine>(self, m: &mut M) -> Result<Shut<SIZE>, Torn<SIZE>>
        requires index { self.index < 2 }
        requires room { room SIZE ≤ size_of self.dev (M.told m.old).sizes }
        requires clean { OnFlash self.dev IsClean (M.told m.old) }

        ensures slot { IfOk result (λ shut. slot_of_shut shut ≡ self.entry) }
        ensures torn { IfErr result (IsTornAt self.entry Shutting) }

        ensures shut { OnOk result (OnFlash self.entry.dev (IsGateShut SIZE self.entry.index) (M.told m.new)) }
        ensures clean { OnOk result (OnFlash self.entry.dev IsClean (M.told m.new)) }

        ensures ran { Runs (IsOneWrite self.entry.dev (IsGate SIZE self.entry.index)) (M.told m.old) (M.told m.new) }
        ensures exact { OnOk result (OnFlash self.entry.dev
            (λ flash. gate_in SIZE self.entry.index flash.content ≡ open_gate
            → Does (shut_ops SIZE self.entry.dev self.entry.index) (M.told m.old) (M.told m.new))
            (M.told m.old)) }
        // Torn, a front of the step's operations was done.
        ensures cut { OnErr result (Runs (IsFrontOf (shut_ops SIZE self.entry.dev self.entry.index)) (M.told m.old) (M.told m.new)) }
        ensures idle { OnFlash self.entry.dev
            (λ flash. gate_in SIZE self.entry.index flash.content ≢ open_gate → Does [] (M.told m.old) (M.told m.new))
            (M.told m.old) }

        // Ok or Torn, the body is as before, and every other byte but the gate.
        ensures rest { KeepsRest self.entry.dev (IsGate SIZE self.entry.index) (M.told m.old) (M.told m.new) }
        ensures fails { FailsAt torn_port result (M.told m.old) (M.told m.new) }
    {
        let Ok(gate) = self.read_gate(m) else {
            return Err(self.torn(Step::Shutting));
        };
        if gate != OPEN {
            return Ok(Shut { slot: self });
        }
        let at = self.gate(m.size(self.dev));
        match write_through(m, self.dev, at, &[CLOSED]) {
            Ok(()) => Ok(Shut { slot: self }),
            Err(_) => Err(self.torn(Step::Shutting)),
        }
    }
}

impl<const SIZE: usize> Shut<SIZE> {
    ghost use Rattle.gate_slot.specs.Slot.{body_offset};
    ghost use Rattle.gate_slot.specs.Token.{slot_of_shut, slot_of_filled};

    /// Writes the slot's body, of SIZE bytes.
    ///
    /// The caller owes that the gate is still shut in every image of this machine's device, where it tells it.
    /// `Torn` comes only where the device's count rose.
    pub fn fill<M: Machine>(self, m: &mut M, body: &[u8]) -> Result<Filled<SIZE>, Torn<SIZE>>
        requires index { (slot_of_shut self).index < 2 }
        requires room { room SIZE ≤ size_of (slot_of_shut self).dev (M.told m.old).sizes }
        requires body { length body.now ≡ SIZE }
        requires shut { OnFlash (slot_of_shut self).dev (IsGateShut SIZE (slot_of_shut self).index) (M.told m.old) }

        ensures slot { IfOk result (λ filled. slot_of_filled filled ≡ slot_of_shut self.entry) }
        ensures torn { IfErr result (IsTornAt (slot_of_shut self.entry) Filling) }

        ensures body { OnOk result (OnFlash (slot_of_shut self.entry).dev
            (HasBody SIZE (slot_of_shut self.entry).index body.now) (M.told m.new)) }
        ensures clean { OnOk result (OnFlash (slot_of_shut self.entry).dev IsClean (M.told m.new)) }
        // Ok or Torn, the gate is still shut.
        ensures shut { OnFlash (slot_of_shut self.entry).dev
            (IsGateShut SIZE (slot_of_shut self.entry).index) (M.told m.new) }

        ensures ran { Runs (IsOneWrite (slot_of_shut self.entry).dev (IsBody SIZE (slot_of_shut self.entry).index))
            (M.told m.old) (M.told m.new) }
        ensures exact { OnOk result (Does
            (fill_ops SIZE (slot_of_shut self.entry).dev (slot_of_shut self.entry).index body.now)
            (M.told m.old) (M.told m.new)) }
        ensures cut { OnErr result (Runs
            (IsFrontOf (fill_ops SIZE (slot_of_shut self.entry).dev (slot_of_shut self.entry).index body.now))
            (M.told m.old) (M.told m.new)) }

        // Ok or Torn, every byte but the body is as before.
        ensures rest { KeepsRest (slot_of_shut self.entry).dev (IsBody SIZE (slot_of_shut self.entry).index)
            (M.told m.old) (M.told m.new) }
        ensures fails { FailsAt torn_port result (M.told m.old) (M.told m.new) }
    {
        let slot = self.slot;
        let at = slot.body(m.size(slot.dev));
        match write_through(m, slot.dev, at, body) {
            Ok(()) => Ok(Filled { slot }),
            Err(_) => Err(slot.torn(Step::Filling)),
        }
    }

    /// Writes the pages of the slot's body that change, rising, over the old body; both have SIZE bytes, which is a
    /// multiple of PAGE_SIZE.
    ///
    /// The caller owes that the gate is still shut in every image of this machine's device and that the slot's body
    /// reads as `old`, where it tells it. `Torn` comes only where the device's count rose, and the body may then hold
    /// anything in those pages.
    pub fn patch<M: Machine>(
        self,
        m: &mut M,
        old: &[u8],
        new: &[u8],
    ) -> Result<Filled<SIZE>, Torn<SIZE>>
        requires index { (slot_of_shut self).index < 2 }
        requires room { room SIZE ≤ size_of (slot_of_shut self).dev (M.told m.old).sizes }
        requires pages { SIZE % page_size ≡ 0 }
        requires old { length old.now ≡ SIZE }
        requires new { length new.now ≡ SIZE }
        requires shut { OnFlash (slot_of_shut self).dev (IsGateShut SIZE (slot_of_shut self).index) (M.told m.old) }
        requires body { OnFlash (slot_of_shut self).dev
            (λ flash. body_in SIZE (slot_of_shut self).index flash.content ≡ old.now) (M.told m.old) }

        ensures slot { IfOk result (λ filled. slot_of_filled filled ≡ slot_of_shut self.entry) }
        ensures torn { IfErr result (IsTornAt (slot_of_shut self.entry) Filling) }

        ensures body { OnOk result (OnFlash (slot_of_shut self.entry).dev
            (HasBody SIZE (slot_of_shut self.entry).index new.now) (M.told m.new)) }
        ensures clean { OnOk result (OnFlash (slot_of_shut self.entry).dev IsClean (M.told m.new)) }
        // Ok or Torn, the gate is still shut.
        ensures shut { OnFlash (slot_of_shut self.entry).dev
            (IsGateShut SIZE (slot_of_shut self.entry).index) (M.told m.new) }

        ensures ran { Runs (IsPatch (slot_of_shut self.entry).dev (IsBody SIZE (slot_of_shut self.entry).index)
            (page_size * length (changed_pages old.now new.now))) (M.told m.old) (M.told m.new) }
        ensures exact { OnOk result (Does
            (patch_ops SIZE (slot_of_shut self.entry).dev (slot_of_shut self.entry).index old.now new.now)
            (M.told m.old) (M.told m.new)) }
        ensures cut { OnErr result (Runs
            (IsFrontOf (patch_ops SIZE (slot_of_shut self.entry).dev (slot_of_shut self.entry).index old.now new.now))
            (M.told m.old) (M.told m.new)) }

        // Ok or Torn, every byte but those of the pages that change is as before.
        ensures rest { KeepsRest (slot_of_shut self.entry).dev
            (IsOfChanged (body_offset SIZE (slot_of_shut self.entry).index) old.now new.now)
            (M.told m.old) (M.told m.new) }
        ensures fails { FailsAt torn_port result (M.told m.old) (M.told m.new) }
    {
        self.patch_found(m, old, new, &Changes::of(old, new))
    }

    /// Patches the slot's body as `patch` does, by the pages that were found before to change.
    ///
    /// The caller owes what `patch` asks for, and that `changes` are those of these two bodies.
    pub fn patch_found<M: Machine>(
        self,
        m: &mut M,
        old: &[u8],
        new: &[u8],
        changes: &Changes,
    ) -> Result<Filled<SIZE>, Torn<SIZE>>
        requires index { (slot_of_shut self).index < 2 }
        requires room { room SIZE ≤ size_of (slot_of_shut self).dev (M.told m.old).sizes }
        requires pages { SIZE % page_size ≡ 0 }
        requires old { length old.now ≡ SIZE }
        requires new { length new.now ≡ SIZE }
        requires changes { AreChanges changes.now old.now new.now }
        requires shut { OnFlash (slot_of_shut self).dev (IsGateShut SIZE (slot_of_shut self).index) (M.told m.old) }
        requires body { OnFlash (slot_of_shut self).dev
            (λ flash. body_in SIZE (slot_of_shut self).index flash.content ≡ old.now) (M.told m.old) }

        ensures slot { IfOk result (λ filled. slot_of_filled filled ≡ slot_of_shut self.entry) }
        ensures torn { IfErr result (IsTornAt (slot_of_shut self.entry) Filling) }

        ensures body { OnOk result (OnFlash (slot_of_shut self.entry).dev
            (HasBody SIZE (slot_of_shut self.entry).index new.now) (M.told m.new)) }
        ensures clean { OnOk result (OnFlash (slot_of_shut self.entry).dev IsClean (M.told m.new)) }
        // Ok or Torn, the gate is still shut.
        ensures shut { OnFlash (slot_of_shut self.entry).dev
            (IsGateShut SIZE (slot_of_shut self.entry).index) (M.told m.new) }

        ensures ran { Runs (IsPatch (slot_of_shut self.entry).dev (IsBody SIZE (slot_of_shut self.entry).index)
            (page_size * length (changed_pages old.now new.now))) (M.told m.old) (M.told m.new) }
        ensures exact { OnOk result (Does
            (patch_ops SIZE (slot_of_shut self.entry).dev (slot_of_shut self.entry).index old.now new.now)
            (M.told m.old) (M.told m.new)) }
        ensures cut { OnErr result (Runs
            (IsFrontOf (patch_ops SIZE (slot_of_shut self.entry).dev (slot_of_shut self.entry).index old.now new.now))
            (M.told m.old) (M.told m.new)) }

        // Ok or Torn, every byte but those of the pages that change is as before.
        ensures rest { KeepsRest (slot_of_shut self.entry).dev
            (IsOfChanged (body_offset SIZE (slot_of_shut self.entry).index) old.now new.now)
            (M.told m.old) (M.told m.new) }
        ensures fails { FailsAt torn_port result (M.told m.old) (M.told m.new) }
    {
        let slot = self.slot;
        let at = slot.body(m.size(slot.dev));
        let Ok(()) = patch_through(m, slot.dev, at, old, new, changes) else {
            return Err(slot.torn(Step::Filling));
        };
        Ok(Filled { slot })
    }
}

impl<const SIZE: usize> Filled<SIZE> {
    ghost use Rattle.gate_slot.specs.Token.{slot_of_filled};

    /// Opens the slot's gate.
    ///
    /// The caller owes that the gate is still shut and the body still whole in every image of this machine's device,
    /// where it tells it. `Torn` comes only where the device's count rose.
    pub fn publish<M: Machine>(self, m: &mut M) -> Result<Live<SIZE>, Torn<SIZE>>
        requires index { (slot_of_filled self).index < 2 }
        requires room { room SIZE ≤ size_of (slot_of_filled self).dev (M.told m.old).sizes }
        requires filled { OnFlash (slot_of_filled self).dev
            (IsFilled SIZE (slot_of_filled self).index) (M.told m.old) }

        ensures slot { IfOk result (λ live. slot_of_live live ≡ slot_of_filled self.entry) }
        ensures torn { IfErr result (IsTornAt (slot_of_filled self.entry) Publishing) }

        ensures opened { OnOk result (OnFlash (slot_of_filled self.entry).dev
            (IsGateOpen SIZE (slot_of_filled self.entry).index) (M.told m.new)) }
        ensures clean { OnOk result (OnFlash (slot_of_filled self.entry).dev IsClean (M.told m.new)) }
        // Ok or Torn, the body that stood there still does.
        ensures body { (body : List ℕ)
            → OnFlash (slot_of_filled self.entry).dev
            (HasBody SIZE (slot_of_filled self.entry).index body) (M.told m.old)
            → OnFlash (slot_of_filled self.entry).dev
            (HasBody SIZE (slot_of_filled self.entry).index body) (M.told m.new) }

        ensures ran { Runs (IsOneWrite (slot_of_filled self.entry).dev (IsGate SIZE (slot_of_filled self.entry).index))
            (M.told m.old) (M.told m.new) }
        ensures exact { OnOk result (Does
            (publish_ops SIZE (slot_of_filled self.entry).dev (slot_of_filled self.entry).index)
            (M.told m.old) (M.told m.new)) }
        ensures cut { OnErr result (Runs
            (IsFrontOf (publish_ops SIZE (slot_of_filled self.entry).dev (slot_of_filled self.entry).index))
            (M.told m.old) (M.told m.new)) }

        // Ok or Torn, every byte but the gate is as before.
        ensures rest { KeepsRest (slot_of_filled self.entry).dev (IsGate SIZE (slot_of_filled self.entry).index)
            (M.told m.old) (M.told m.new) }
        ensures fails { FailsAt torn_port result (M.told m.old) (M.told m.new) }
    {
        let slot = self.slot;
        let at = slot.gate(m.size(slot.dev));
        match write_through(m, slot.dev, at, &[OPEN]) {
            Ok(()) => Ok(Live { slot }),
            Err(_) => Err(slot.torn(Step::Publishing)),
        }
    }
}

impl<const SIZE: usize> Live<SIZE> {
    /// The slot that it names.
    pub fn slot(&self) -> Slot<SIZE>
        ensures { result ≡ slot_of_live self.now }
    {
        self.slot
    }
}

/// The token of a slot that is open with this body. It is None exactly where the slot is not, and reads only.
///
/// The caller owes that the device has no dirty byte, and that `body` and `buffer` have SIZE bytes. `buffer` may then
/// hold anything. The slot's device is answered only where its count rose.
pub fn adopt<M: Machine, const SIZE: usize>(
    m: &mut M,
    slot: Slot<SIZE>,
    body: &[u8],
    buffer: &mut [u8],
) -> Result<Option<Live<SIZE>>, Dev>
    requires index { slot.index < 2 }
    requires room { room SIZE ≤ size_of slot.dev (M.told m.old).sizes }
    requires clean { OnFlash slot.dev IsClean (M.told m.old) }
    requires body { length body.now ≡ SIZE }
    requires buffer { length buffer.old ≡ SIZE }

    ensures slot { IfOk result (λ found. IfSome found (λ live. slot_of_live live ≡ slot.entry)) }
    ensures opened { IfOk result (λ found. OnSome found (OnFlash slot.entry.dev
        (IsGateOpen SIZE slot.entry.index) (M.told m.old))) }
    ensures body { IfOk result (λ found. OnSome found (OnFlash slot.entry.dev
        (HasBody SIZE slot.entry.index body.now) (M.told m.old))) }
    ensures other { IfOk result (λ found. IfNone found (OnFlash slot.entry.dev
        (λ flash. gate_in SIZE slot.entry.index flash.content ≡ open_gate
        → body_in SIZE slot.entry.index flash.content ≢ body.now)
        (M.told m.old))) }

    ensures dev { IfErr result (λ dev. dev ≡ slot.entry.dev) }
    ensures done { Does [] (M.told m.old) (M.told m.new) }
    ensures fails { FailsAt port_of result (M.told m.old) (M.told m.new) }
{
    let opened = slot.read(m, buffer)?;
    if opened && &*buffer == body {
        Ok(Some(Live { slot }))
    } else {
        Ok(None)
    }
}
