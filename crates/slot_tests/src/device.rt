//! A machine in memory whose internal device has two slots with bodies of four bytes.
ghost use Rattle.std.specs.Prelude.{◌≤◌, IfOk};
ghost use Rattle.urna_outside.specs.Flash.{IsClean};
ghost use Rattle.memory_outside.specs.Recorder.{recorder_told};
ghost use Rattle.urna_outside.specs.Told.{size_of};
ghost use Rattle.urna_outside.specs.declared.device.Dev.TheVariants.{Internal};
ghost use Rattle.gate_slot.specs.Device.{OnFlash};
ghost use Rattle.gate_slot.specs.Slot.{room};

use memory_outside::Recorder;
use urna_base::Memory;

/// The body that both slots have.
pub(crate) const OLD: [u8; 4] = [1; 4];

/// The byte of an open gate.
pub(crate) const OPEN: u8 = 0xA5;

/// The bytes of a device: a header of 512, and two slots of a gate, a padding of 511 and a body of 4.
pub(crate) const DEVICE: usize = 1_544;

/// A machine whose internal device has both slots open with the old body. It has room for 16 operations and 64 bytes, and
/// fails at the calls whose numbers are in `failing`, counted from 0. `Memory` comes only where an allocation failed.
pub fn machine(rt: &impl AllocGlobal, failing: &[u32]) -> Result<Recorder, Memory>
    ensures room { IfOk result (λ m. room 4 ≤ size_of Internal (recorder_told m).sizes) }
    ensures clean { IfOk result (λ m. OnFlash Internal IsClean (recorder_told m)) }
{
    let alloc = rt.alloc();
    let external = vec![in alloc; 7; DEVICE]?;
    let mut internal = external.to_vec(alloc)?;
    internal[512] = OPEN;
    internal[1_024..1_028].copy_from_slice(&OLD);
    internal[1_028] = OPEN;
    internal[1_540..].copy_from_slice(&OLD);
    let m = Recorder::restart(alloc, internal, external, 16, 64, failing)?;
    Ok(m)
}
