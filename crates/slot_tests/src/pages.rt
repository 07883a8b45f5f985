//! Slots with bodies of three pages, of which the first and the last change, on a machine in memory that stops, or has no
//! room for a page, where it is told to.
ghost use Rattle.std.specs.Prelude.{◌≡◌, ◌<◌, ◌≤◌, ◌%◌, length, IfOk, OnErr};
ghost use Rattle.urna_outside.specs.Flash.{IsClean};
ghost use Rattle.memory_outside.specs.Recorder.{recorder_told};
ghost use Rattle.urna_outside.specs.Told.{Rose, faults_of, port_of, size_of};
ghost use Rattle.urna_outside.specs.declared.device.Dev.TheVariants.{Internal};
ghost use Rattle.gate_slot.specs.Device.{OnFlash};
ghost use Rattle.gate_slot.specs.Page.{page_size};
ghost use Rattle.gate_slot.specs.Slot.{HasBody, room};

use crate::device::OPEN;
use crate::twins::{CLOSED, renewed};
use gate_slot::{Live, Slot, Step, Torn, adopt};
use memory_outside::{Recorder, Tear};
use std::process::Abort;
use std::test::Fail;
use urna_outside::{Dev, Machine};

const SIZE: usize = 1_536;

const OLD: [u8; SIZE] = [1; SIZE];

/// The bytes of a device: a header of 512, and two slots of a gate, a padding of 511 and a body.
const DEVICE: usize = 4_608;

const SLOT: Slot<SIZE> = Slot {
    dev: Dev::Internal,
    index: 0,
};

/// Where the body of slot 0 begins, and where its pages do.
const BODY: usize = 1_024;

/// A machine whose internal device has both slots open with the old body, and room for so many bytes of trail.
fn machine(rt: &impl AllocGlobal, bytes: u32) -> Result<Recorder, Fail>
    ensures room { IfOk result (λ m. room 1536 ≤ size_of Internal (recorder_told m).sizes) }
    ensures clean { IfOk result (λ m. OnFlash Internal IsClean (recorder_told m)) }
{
    let alloc = rt.alloc();
    let external = vec![in alloc; 7; DEVICE]?;
    let mut internal = external.to_vec(alloc)?;
    internal[512] = OPEN;
    internal[BODY..2_560].copy_from_slice(&OLD);
    internal[2_560] = OPEN;
    internal[3_072..].copy_from_slice(&OLD);
    Ok(Recorder::restart(alloc, internal, external, 16, bytes, &[])?)
}

/// The first and the last page are other ones.
fn new_body() -> [u8; SIZE]
    ensures { length result ≡ 1536 }
{
    let mut new = OLD;
    new[..512].copy_from_slice(&[2; 512]);
    new[1_024..].copy_from_slice(&[3; 512]);
    new
}

/// Shuts a slot that is live with a body, patches it and publishes it. Where that is torn, the count of the device rose.
fn patched<M: Machine, const SIZE: usize>(
    m: &mut M,
    slot: Slot<SIZE>,
    old: &[u8],
    new: &[u8],
) -> Result<Live<SIZE>, Torn<SIZE>>
    requires index { slot.index < 2 }
    requires room { room SIZE ≤ size_of slot.dev (M.told m.old).sizes }
    requires pages { SIZE % page_size ≡ 0 }
    requires old { length old.now ≡ SIZE }
    requires new { length new.now ≡ SIZE }
    requires clean { OnFlash slot.dev IsClean (M.told m.old) }
    requires body { OnFlash slot.dev (HasBody SIZE slot.index old.now) (M.told m.old) }
    ensures rose { OnErr result (Rose (faults_of (port_of slot.entry.dev) (M.told m.old).faults)
        (faults_of (port_of slot.entry.dev) (M.told m.new).faults)) }
{
    let shut = slot.shut(m)?;
    let filled = shut.patch(m, old, new)?;
    filled.publish(m)
}

/// Takes a slot over that is live with a body, and patches it.
fn taken_and_patched<M: Machine, const SIZE: usize>(
    m: &mut M,
    slot: Slot<SIZE>,
    old: &[u8],
    new: &[u8],
    buffer: &mut [u8],
) -> Result<Result<Live<SIZE>, Torn<SIZE>>, Fail>
    requires index { slot.index < 2 }
    requires room { room SIZE ≤ size_of slot.dev (M.told m.old).sizes }
    requires pages { SIZE % page_size ≡ 0 }
    requires old { length old.now ≡ SIZE }
    requires new { length new.now ≡ SIZE }
    requires buffer { length buffer.old ≡ SIZE }
    requires clean { OnFlash slot.dev IsClean (M.told m.old) }
    ensures rose { IfOk result (λ ended. OnErr ended (Rose (faults_of (port_of slot.entry.dev) (M.told m.old).faults)
        (faults_of (port_of slot.entry.dev) (M.told m.new).faults))) }
{
    let live = adopt(m, slot, old, buffer)?.ok_or("the slot is not live")?;
    Ok(patched(m, live.slot(), old, new))
}

/// What a power cut leaves of the internal device after the first operations: each range has this byte.
fn check_left(
    rt: &(impl Abort + AllocGlobal),
    m: &Recorder,
    ops: u32,
    tear: Tear,
    ranges: &[(usize, usize, u8)],
) -> Result<(), Fail> {
    assert!(rt; ops <= m.trail_len());
    let image = m.stop(rt.alloc(), Dev::Internal, ops, tear)?;
    for (from, to, byte) in ranges {
        let part = image.get(*from..*to).expect(rt, "it lies on the device");
        assert!(rt;
            part.iter().all(|b| b == byte),
            "after {ops}: {from} to {to}"
        );
    }
    Ok(())
}

/// The slot of a machine with the old body is patched, in seven operations.
fn check_patched(rt: &impl Abort, m: &mut Recorder) -> Result<(), Fail>
    requires room { room 1536 ≤ size_of Internal (recorder_told m.old).sizes }
    requires clean { OnFlash Internal IsClean (recorder_told m.old) }
{
    let mut buffer = [0; SIZE];
    let live = taken_and_patched(m, SLOT, &OLD, &new_body(), &mut buffer)??;
    assert!(rt; live.slot() == SLOT);
    assert!(rt; m.trail_len() == 7);
    Ok(())
}

/// What a cut in a patch leaves of the gate and of the three pages, after so many operations.
fn check_cut(
    rt: &(impl Abort + AllocGlobal),
    m: &Recorder,
    ops: u32,
    bytes: [u8; 4],
) -> Result<(), Fail> {
    let ranges = [
        (512, 513, bytes[0]),
        (1_024, 1_536, bytes[1]),
        (1_536, 2_048, bytes[2]),
        (2_048, 2_560, bytes[3]),
    ];
    check_left(rt, m, ops, Tear::Byte(0x99), &ranges)
}

/// Two operations shut the gate, three put and sync the pages, and two open the gate.
#[test]
fn a_patch_puts_the_pages_that_change(rt: HostRuntime) -> Result<(), Fail> {
    let mut m = machine(&rt, 4_096)?;
    check_patched(&rt, &mut m)?;
    for (ops, bytes) in [
        (2, [CLOSED, 1, 1, 1]),
        (3, [CLOSED, 0x99, 1, 1]),
        (4, [CLOSED, 0x99, 1, 0x99]),
        (5, [CLOSED, 2, 1, 3]),
        (7, [OPEN, 2, 1, 3]),
    ] {
        check_cut(&rt, &m, ops, bytes)?;
    }
    Ok(())
}

/// A patch is torn in the page that begins there, behind so many bytes of it, which are these.
fn check_torn(
    rt: &(impl Abort + AllocGlobal),
    m: &mut Recorder,
    page: usize,
    part: usize,
    byte: u8,
) -> Result<(), Fail>
    requires room { room 1536 ≤ size_of Internal (recorder_told m.old).sizes }
    requires clean { OnFlash Internal IsClean (recorder_told m.old) }
    requires within { (page ≤ 4096) × (part ≤ 512) }
{
    let torn = Torn {
        slot: SLOT,
        step: Step::Filling,
    };
    let mut buffer = [0; SIZE];
    let ended = taken_and_patched(m, SLOT, &OLD, &new_body(), &mut buffer)?;
    assert!(rt; ended.err() == Some(torn), "at {page} {part}");
    let end = page + part;
    for (tear, left) in [
        (Tear::AsPut, byte),
        (Tear::Byte(OPEN), OPEN),
        (Tear::Byte(1), 1),
    ] {
        let ranges = [
            (512, 513, CLOSED),
            (page, end, left),
            (end, page + 512, 1),
            (1_536, 2_048, 1),
            (2_560, 2_561, OPEN),
            (3_072, DEVICE, 1),
        ];
        check_left(rt, m, m.trail_len(), tear, &ranges)?;
    }
    Ok(())
}

/// There is room for the shut gate, for whole pages before it, and for a part of the page.
#[test]
fn a_patch_is_torn_in_each_page_at_three_places(rt: HostRuntime) -> Result<(), Fail> {
    for part in [1, 100, 256] {
        let mut m = machine(&rt, 1 + part)?;
        check_torn(&rt, &mut m, 1_024, part as usize, 2)?;
        let mut m = machine(&rt, 513 + part)?;
        check_torn(&rt, &mut m, 2_048, part as usize, 3)?;
    }
    Ok(())
}

/// Both slots of a machine with the old bodies are renewed, in seven operations each.
fn check_renewed(rt: &impl Abort, m: &mut Recorder) -> Result<(), Fail>
    requires room { room 1536 ≤ size_of Internal (recorder_told m.old).sizes }
    requires clean { OnFlash Internal IsClean (recorder_told m.old) }
{
    let mut buffer = [0; SIZE];
    renewed::<_, SIZE>(m, Dev::Internal, &OLD, &new_body(), &mut buffer)??;
    assert!(rt; m.trail_len() == 14);
    Ok(())
}

#[test]
fn a_renewal_puts_the_pages_that_change(rt: HostRuntime) -> Result<(), Fail> {
    let mut m = machine(&rt, 4_096)?;
    check_renewed(&rt, &mut m)?;
    let ranges = [
        (512, 513, CLOSED),
        (1_024, 1_536, 0x99),
        (1_536, 2_048, 1),
        (2_048, 2_560, 0x99),
        (2_560, 2_561, OPEN),
        (3_072, DEVICE, 1),
    ];
    check_left(&rt, &m, 4, Tear::Byte(0x99), &ranges)?;
    let ranges = [
        (512, 513, OPEN),
        (1_024, 1_536, 2),
        (1_536, 2_048, 1),
        (2_048, 2_560, 3),
        (2_560, 2_561, OPEN),
        (3_072, 3_584, 2),
        (3_584, 4_096, 1),
        (4_096, DEVICE, 3),
    ];
    check_left(&rt, &m, 14, Tear::Byte(0x99), &ranges)
}
