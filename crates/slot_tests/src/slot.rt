//! A slot with a body of four bytes over a machine in memory, which fails and stops where it is told to.
ghost use Rattle.std.specs.Prelude.{◌≡◌, ◌<◌, ◌≤◌, length, IfOk, OnErr};
ghost use Rattle.urna_outside.specs.Flash.{IsClean};
ghost use Rattle.memory_outside.specs.Recorder.{recorder_told};
ghost use Rattle.urna_outside.specs.Told.{Rose, faults_of, port_of, size_of};
ghost use Rattle.urna_outside.specs.declared.device.Dev.TheVariants.{External};
ghost use Rattle.gate_slot.specs.Device.{OnFlash};
ghost use Rattle.gate_slot.specs.Slot.{room};

use crate::device::{DEVICE, OLD, OPEN};
use crate::twins::{CLOSED, NEW, TEARS};
use gate_slot::{Live, Slot, Step, Torn, adopt};
use memory_outside::{Recorder, Tear};
use std::process::Abort;
use std::test::Fail;
use urna_outside::{Dev, Machine};

/// The slot that begins at 512 + 516.
const SLOT: Slot<4> = Slot {
    dev: Dev::External,
    index: 1,
};

const GATE: usize = 1_028;

const BODY: usize = 1_540;

/// A machine whose slot is open with the old body.
fn machine(rt: &impl AllocGlobal, failing: &[u32]) -> Result<Recorder, Fail>
    ensures room { IfOk result (λ m. room 4 ≤ size_of External (recorder_told m).sizes) }
    ensures clean { IfOk result (λ m. OnFlash External IsClean (recorder_told m)) }
{
    let alloc = rt.alloc();
    let internal = vec![in alloc; 0; DEVICE]?;
    let mut external = internal.to_vec(alloc)?;
    external[GATE] = OPEN;
    external[BODY..].copy_from_slice(&OLD);
    Ok(Recorder::restart(alloc, internal, external, 8, 64, failing)?)
}

/// Shuts a slot, fills it with a body and publishes it. Where that is torn, the count of the device rose.
fn turn<M: Machine, const SIZE: usize>(
    m: &mut M,
    slot: Slot<SIZE>,
    body: &[u8],
) -> Result<Live<SIZE>, Torn<SIZE>>
    requires index { slot.index < 2 }
    requires room { room SIZE ≤ size_of slot.dev (M.told m.old).sizes }
    requires body { length body.now ≡ SIZE }
    requires clean { OnFlash slot.dev IsClean (M.told m.old) }
    ensures rose { OnErr result (Rose (faults_of (port_of slot.entry.dev) (M.told m.old).faults)
        (faults_of (port_of slot.entry.dev) (M.told m.new).faults)) }
{
    slot.shut(m)?.fill(m, body)?.publish(m)
}

/// The gate and the body that a power cut leaves of the slot after the first operations.
fn left(
    rt: &(impl Abort + AllocGlobal),
    m: &Recorder,
    ops: u32,
    tear: Tear,
) -> Result<(u8, [u8; 4]), Fail> {
    assert!(rt; ops <= m.trail_len());
    let image = m.stop(rt.alloc(), Dev::External, ops, tear)?;
    assert!(rt; image.len() == DEVICE);
    let mut body = [0; 4];
    body.copy_from_slice(&image[BODY..]);
    Ok((image[GATE], body))
}

/// Each step is a write and a sync.
#[test]
fn a_slot_is_taken_over_shut_filled_and_published(rt: HostRuntime) -> Result<(), Fail> {
    let mut m = machine(&rt, &[])?;
    let mut buffer = [0; 4];
    let live = adopt(&mut m, SLOT, &OLD, &mut buffer)?.expect(&rt, "it is open with that body");
    let live = turn(&mut m, live.slot(), &NEW)?;
    assert!(rt; live.slot() == SLOT);
    assert!(rt; m.trail_len() == 6);
    for tear in TEARS {
        assert!(rt; left(&rt, &m, 2, tear)? == (CLOSED, OLD), "shut");
        assert!(rt; left(&rt, &m, 4, tear)? == (CLOSED, NEW), "filled");
        assert!(rt; left(&rt, &m, 6, tear)? == (OPEN, NEW), "published");
    }
    Ok(())
}

#[test]
fn a_slot_with_another_body_or_a_shut_one_is_not_taken_over(rt: HostRuntime) -> Result<(), Fail> {
    let mut m = machine(&rt, &[])?;
    let mut buffer = [0; 4];
    assert!(rt; adopt(&mut m, SLOT, &NEW, &mut buffer)?.is_none());
    SLOT.shut(&mut m)?;
    assert!(rt; adopt(&mut m, SLOT, &OLD, &mut buffer)?.is_none());
    Ok(())
}

/// A turn of the slot whose call of this number fails is torn in this step.
fn check_torn(rt: &(impl Abort + AllocGlobal), call: u32, step: Step) -> Result<(), Fail> {
    let mut m = machine(rt, &[call])?;
    let torn = Torn { slot: SLOT, step };
    assert!(rt; turn(&mut m, SLOT, &NEW).err() == Some(torn), "at {call}");
    check_owed(rt, &m, call, step)
}

/// What a machine owes whose call of this number failed in a step.
fn check_owed(
    rt: &(impl Abort + AllocGlobal),
    m: &Recorder,
    call: u32,
    step: Step,
) -> Result<(), Fail> {
    for tear in TEARS {
        let (gate, body) = left(rt, m, m.trail_len(), tear)?;
        let is_owed = match step {
            Step::Shutting => body == OLD,
            Step::Filling => gate == CLOSED,
            Step::Publishing => body == NEW,
        };
        assert!(rt; is_owed, "at {call}");
    }
    Ok(())
}

/// The gate is read, and each step is a write and a sync.
#[test]
fn a_step_that_fails_leaves_what_it_owes(rt: HostRuntime) -> Result<(), Fail> {
    for (call, step) in [
        (0, Step::Shutting),
        (1, Step::Shutting),
        (2, Step::Shutting),
        (3, Step::Filling),
        (4, Step::Filling),
        (5, Step::Publishing),
        (6, Step::Publishing),
    ] {
        check_torn(&rt, call, step)?;
    }
    Ok(())
}

/// The gate is read, and then the body.
#[test]
fn a_device_that_fails_to_read_is_answered(rt: HostRuntime) -> Result<(), Fail> {
    for call in [0, 1] {
        let mut m = machine(&rt, &[call])?;
        let mut buffer = [0; 4];
        let failed = adopt(&mut m, SLOT, &OLD, &mut buffer).err();
        assert!(rt; failed == Some(Dev::External), "at {call}");
    }
    Ok(())
}
