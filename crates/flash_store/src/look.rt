//! Looking at the bytes of a device, and at its frame: its header and the paddings behind its gates.
ghost use Rattle.std.specs.Prelude.{◌≡◌, ◌<◌, ◌≤◌, ◌+◌, ◌↔◌, [], length, slice_index, IsTrue, IfOk, IfErr};
ghost use Rattle.std.specs.Option.{ForSome};
ghost use Rattle.urna_outside.specs.Faults.{FailsAt};
ghost use Rattle.urna_outside.specs.Flash.{flash_of, part};
ghost use Rattle.urna_outside.specs.Told.{Does, port_of, size_of};
ghost use Rattle.gate_slot.specs.Slot.{header_size, room};
ghost use Rattle.twin_image.specs.Frame.{HasFrame};

use gate_slot::{HEADER_SIZE, PADDING_SIZE, Slot};
use urna_outside::{Dev, Machine};

const PADDING: [u8; PADDING_SIZE] = [0; PADDING_SIZE];

/// Whether these bytes, at most as many as a header has, stand on a device from an offset on. It reads and does nothing else.
///
/// The caller owes that they stand within the device. The device is answered only where its count of faults rose.
pub fn stand_at<M: Machine>(m: &mut M, dev: Dev, at: u32, bytes: &[u8]) -> Result<bool, Dev>
    requires range { at + length bytes.now ≤ size_of dev (M.told m.old).sizes }
    requires short { length bytes.now ≤ header_size }
    ensures stand { IfOk result (λ stand. ForSome (M.told m.old).flashes
        (λ flashes. IsTrue stand ↔ (part (flash_of dev flashes).content at (length bytes.now) ≡ bytes.now))) }
    ensures dev { IfErr result (λ failed. failed ≡ dev) }
    ensures done { Does [] (M.told m.old) (M.told m.new) }
    ensures fails { FailsAt port_of result (M.told m.old) (M.told m.new) }
{
    let mut buffer = [0; HEADER_SIZE];
    let read = &mut buffer[..bytes.len()];
    match m.read(dev, at, read) {
        Ok(()) => Ok(*read == *bytes),
        Err(_) => Err(dev),
    }
}

/// The byte of a device at an offset. It reads and does nothing else.
///
/// The caller owes that it stands within the device. The device is answered only where its count of faults rose.
#[tactic(auto, using(crate::proofs::Looking::only_byte))]
pub fn byte_at<M: Machine>(m: &mut M, dev: Dev, at: u32) -> Result<u8, Dev>
    requires { at < size_of dev (M.told m.old).sizes }
    ensures byte { IfOk result (λ byte. ForSome (M.told m.old).flashes
        (λ flashes. byte ≡ slice_index (flash_of dev flashes).content at)) }
    ensures dev { IfErr result (λ failed. failed ≡ dev) }
    ensures done { Does [] (M.told m.old) (M.told m.new) }
    ensures fails { FailsAt port_of result (M.told m.old) (M.told m.new) }
{
    let mut byte = [0; 1];
    match m.read(dev, at, &mut byte) {
        Ok(()) => Ok(byte[0]),
        Err(_) => Err(dev),
    }
}

/// Whether a device with two slots of SIZE bytes has this header, and zeros behind both gates. It reads and does nothing else.
///
/// The caller owes that the device has room for them. The device is answered only where its count of faults rose.
#[tactic(auto, using(crate::proofs::Looking::looked, crate::proofs::Looking::looked_twice, urna_outside::proofs::Faults::fails_later))]
pub fn has_frame<M: Machine, const SIZE: usize>(
    m: &mut M,
    dev: Dev,
    header: &[u8; HEADER_SIZE],
) -> Result<bool, Dev>
    requires { room SIZE ≤ size_of dev (M.told m.old).sizes }
    ensures frame { IfOk result (λ has. ForSome (M.told m.old).flashes
        (λ flashes. IsTrue has ↔ HasFrame SIZE header.now (flash_of dev flashes).content)) }
    ensures dev { IfErr result (λ failed. failed ≡ dev) }
    ensures done { Does [] (M.told m.old) (M.told m.new) }
    ensures fails { FailsAt port_of result (M.told m.old) (M.told m.new) }
{
    if !stand_at(m, dev, 0, header)? {
        return Ok(false);
    }
    let size = m.size(dev);
    let first = Slot::<SIZE> { dev, index: 0 };
    if !stand_at(m, dev, first.padding(size), &PADDING)? {
        return Ok(false);
    }
    let second = Slot::<SIZE> { dev, index: 1 };
    let padded = stand_at(m, dev, second.padding(size), &PADDING)?;
    Ok(padded)
}
