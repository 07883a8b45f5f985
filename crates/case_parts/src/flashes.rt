//! What both flashes hold.
ghost use Rattle.std.specs.Prelude.{◌≡◌, ◌<◌, ◌^◌, IfOk};
ghost use Rattle.memory_outside.specs.Recorder.{recorder_told};
ghost use Rattle.urna_outside.specs.Told.{size_of};
ghost use Rattle.urna_outside.specs.declared.device.Dev.{Dev};

use crate::failing::Failing;
use crate::halt::Halt;
use gate_slot::HEADER_SIZE;
use memory_outside::Recorder;
use std::alloc::Global;
use urna_outside::Dev;

/// What both devices hold.
#[derive(Drop)]
pub struct Flashes {
    pub internal: Vec<u8>,
    pub external: Vec<u8>,
}

/// Flashes without a byte, which no machine has.
pub fn no_flashes(alloc: Global) -> Flashes {
    Flashes {
        internal: Vec::new(alloc),
        external: Vec::new(alloc),
    }
}

/// Flashes of so many zeros each.
pub fn blank(alloc: Global, size: u32) -> Result<Flashes, Halt> {
    Ok(Flashes {
        internal: vec![in alloc; 0; size as usize]?,
        external: vec![in alloc; 0; size as usize]?,
    })
}

/// The same flashes once more.
pub fn copied(alloc: Global, flashes: &Flashes) -> Result<Flashes, Halt> {
    Ok(Flashes {
        internal: flashes.internal.to_vec(alloc)?,
        external: flashes.external.to_vec(alloc)?,
    })
}

/// What a machine's devices hold.
pub fn left(alloc: Global, m: &Recorder) -> Result<Flashes, Halt> {
    Ok(Flashes {
        internal: m.content(Dev::Internal).to_vec(alloc)?,
        external: m.content(Dev::External).to_vec(alloc)?,
    })
}

/// Whether two pairs of flashes hold the same.
pub fn are_same(one: &Flashes, other: &Flashes) -> bool {
    one.internal == other.internal && one.external == other.external
}

/// Whether a machine's devices hold what these do.
pub fn is_left(m: &Recorder, flashes: &Flashes) -> bool {
    m.content(Dev::Internal) == flashes.internal.as_slice()
        && m.content(Dev::External) == flashes.external.as_slice()
}

/// The most operations that a machine remembers.
const OPERATIONS: u32 = 4_096;

/// A machine over a copy of these flashes, whose calls of these numbers fail. The caller owes that the size is below 2^31. `Script` comes
/// where the flashes don't have so many bytes each.
pub fn machine(
    alloc: Global,
    flashes: &Flashes,
    failing: &Failing,
    size: u32,
) -> Result<Recorder, Halt>
    requires { size < 2 ^ 31 }
    ensures { IfOk result (λ m. (d : Dev) → size_of d (recorder_told m).sizes ≡ size) }
{
    let Flashes { internal, external } = copied(alloc, flashes)?;
    if internal.len() != size as usize || external.len() != size as usize {
        return Err(Halt::Script);
    }
    Ok(Recorder::restart(
        alloc,
        internal,
        external,
        OPERATIONS,
        failing.room,
        &failing.machine,
    )?)
}

/// Puts bytes in an image from a place on, as far as it goes.
pub fn set(image: &mut [u8], at: usize, bytes: &[u8]) {
    for (place, byte) in image.iter_mut().skip(at).zip(bytes) {
        *place = *byte;
    }
}

/// Shuts the gates of an image: behind the header, and in the middle of what follows it.
fn shut(image: &mut [u8]) {
    let half = image.len().saturating_sub(HEADER_SIZE) / 2;
    set(image, HEADER_SIZE, &[0]);
    set(image, HEADER_SIZE.saturating_add(half), &[0]);
}

/// Shuts the gates of a device, so that none of its slots stands.
pub fn shut_device(flashes: &mut Flashes, dev: Dev) {
    match dev {
        Dev::Internal => shut(&mut flashes.internal),
        Dev::External => shut(&mut flashes.external),
    }
}
