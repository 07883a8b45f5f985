//! The two slots of a device with bodies of four bytes, renewed on a machine in memory that fails and stops where it
//! is told to.
ghost use Rattle.std.specs.Prelude.{◌≡◌, ◌≤◌, length, IfOk, OnErr};
ghost use Rattle.urna_outside.specs.Flash.{IsClean};
ghost use Rattle.urna_outside.specs.Told.{Rose, faults_of, port_of, size_of};
ghost use Rattle.gate_slot.specs.Device.{OnFlash};
ghost use Rattle.gate_slot.specs.Slot.{room};

use crate::device::{DEVICE, OLD, OPEN, machine};
use gate_slot::{Live, Slot, Step, Torn, adopt};
use memory_outside::{Recorder, Tear};
use std::process::Abort;
use std::test::Fail;
use twin_image::renew;
use urna_outside::{Dev, Machine};

pub(crate) const NEW: [u8; 4] = [2; 4];

pub(crate) const CLOSED: u8 = 0x5A;

pub(crate) const TEARS: [Tear; 4] = [
    Tear::AsPut,
    Tear::Byte(0x00),
    Tear::Byte(CLOSED),
    Tear::Byte(OPEN),
];

/// The gate and the body of a slot.
type Held = (u8, [u8; 4]);

/// Takes both slots of a device over and renews them. Where that is torn, the count of the device rose.
pub(crate) fn renewed<M: Machine, const SIZE: usize>(
    m: &mut M,
    dev: Dev,
    old: &[u8],
    new: &[u8],
    buffer: &mut [u8],
) -> Result<Result<(Live<SIZE>, Live<SIZE>), Torn<SIZE>>, Fail>
    requires room { room SIZE ≤ size_of dev (M.told m.old).sizes }
    requires old { length old.now ≡ SIZE }
    requires new { length new.now ≡ SIZE }
    requires buffer { length buffer.old ≡ SIZE }
    requires clean { OnFlash dev IsClean (M.told m.old) }
    ensures rose { IfOk result (λ ended. OnErr ended (Rose (faults_of (port_of dev) (M.told m.old).faults)
        (faults_of (port_of dev) (M.told m.new).faults))) }
{
    let first = adopt(m, Slot { dev, index: 0 }, old, buffer)?.ok_or("slot 0 is not live")?;
    let second = adopt(m, Slot { dev, index: 1 }, old, buffer)?.ok_or("slot 1 is not live")?;
    Ok(renew(m, first, second, old, new))
}

/// What a power cut leaves of a device after the first operations.
fn left(
    rt: &(impl Abort + AllocGlobal),
    m: &Recorder,
    dev: Dev,
    ops: u32,
    tear: Tear,
) -> Result<Vec<u8>, Fail>
    ensures { IfOk result (λ image. length image.items ≡ 1544) }
{
    assert!(rt; ops <= m.trail_len());
    let image = m.stop(rt.alloc(), dev, ops, tear)?;
    assert!(rt; image.len() == DEVICE);
    Ok(image)
}

/// What both slots hold in the image of a device: one begins at 512, and the other 516 behind.
fn held(image: &[u8]) -> [Held; 2]
    requires { length image.now ≡ 1544 }
{
    let mut bodies = [[0; 4]; 2];
    bodies[0].copy_from_slice(&image[1_024..1_028]);
    bodies[1].copy_from_slice(&image[1_540..]);
    [(image[512], bodies[0]), (image[1_028], bodies[1])]
}

/// Whether two images agree but in gates and bodies.
fn have_same_frame(image: &[u8], other: &[u8]) -> bool {
    for (from, to) in [(0, 512), (513, 1_024), (1_029, 1_540)] {
        if image.get(from..to) != other.get(from..to) {
            return false;
        }
    }
    image.len() == other.len()
}

#[test]
fn a_renewal_is_stopped_at_a_body_and_at_a_gate(rt: HostRuntime) -> Result<(), Fail> {
    let mut m = machine(&rt, &[])?;
    let mut buffer = [0; 4];
    let (first, second) = renewed::<_, 4>(&mut m, Dev::Internal, &OLD, &NEW, &mut buffer)??;
    assert!(rt; [first.slot().index, second.slot().index] == [0, 1]);
    assert!(rt; m.trail_len() == 12);
    for (ops, byte, slots) in [
        (3, 0x99, [(CLOSED, [0x99; 4]), (OPEN, OLD)]),
        (5, OPEN, [(OPEN, NEW), (OPEN, OLD)]),
        (12, 0x99, [(OPEN, NEW), (OPEN, NEW)]),
    ] {
        let image = left(&rt, &m, Dev::Internal, ops, Tear::Byte(byte))?;
        assert!(rt; held(&image) == slots, "after {ops}");
    }
    Ok(())
}

/// Whether each slot that is open has the old or the new body, and one is open.
fn holds_either(slots: [Held; 2]) -> bool {
    let [(first, first_body), (second, second_body)] = slots;
    (first != OPEN || first_body == OLD || first_body == NEW)
        && (second != OPEN || second_body == OLD || second_body == NEW)
        && (first == OPEN || second == OPEN)
}

#[test]
fn a_renewal_is_stopped_after_each_operation(rt: HostRuntime) -> Result<(), Fail> {
    let mut m = machine(&rt, &[])?;
    let internal = left(&rt, &m, Dev::Internal, 0, Tear::AsPut)?;
    let external = left(&rt, &m, Dev::External, 0, Tear::AsPut)?;
    let mut buffer = [0; 4];
    renewed::<_, 4>(&mut m, Dev::Internal, &OLD, &NEW, &mut buffer)??;
    for ops in 0..=12 {
        for tear in TEARS {
            let image = left(&rt, &m, Dev::Internal, ops, tear)?;
            assert!(rt; holds_either(held(&image)), "after {ops}");
            assert!(rt; have_same_frame(&image, &internal), "after {ops}");
            let other = left(&rt, &m, Dev::External, ops, tear)?;
            assert!(rt; other == external, "after {ops}");
        }
    }
    Ok(())
}

/// A gate and a body of each slot are read, and then the fourth call is the write of the first body.
#[test]
fn a_renewal_whose_device_fails_is_torn(rt: HostRuntime) -> Result<(), Fail> {
    let mut m = machine(&rt, &[7])?;
    let mut buffer = [0; 4];
    let torn = Torn {
        slot: Slot::<4> {
            dev: Dev::Internal,
            index: 0,
        },
        step: Step::Filling,
    };
    let ended = renewed::<_, 4>(&mut m, Dev::Internal, &OLD, &NEW, &mut buffer)?;
    assert!(rt; ended.err() == Some(torn));
    let image = left(&rt, &m, Dev::Internal, m.trail_len(), Tear::AsPut)?;
    assert!(rt; held(&image) == [(CLOSED, [2, 2, 1, 1]), (OPEN, OLD)]);
    Ok(())
}
