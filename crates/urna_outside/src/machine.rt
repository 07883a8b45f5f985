ghost use Rattle.std.specs.Prelude.{◌≡◌, ◌+◌, ◌^◌, ◌<◌, ◌≤◌, [], ◌∷◌, length, OnOk, OnErr};
ghost use Rattle.std.specs.Option.{ForSome};
ghost use Rattle.urna_outside.specs.Flash.{Put, Show, Sync, flash_of, part};
ghost use Rattle.urna_outside.specs.Told.{Told, Does, Runs, Counts, IsCalled, IsTornPut, IsTornShow, AreSized, port_of, size_of};
ghost use Rattle.urna_outside.specs.declared.device.Dev.{Dev};
ghost use Rattle.urna_outside.specs.declared.device.Port.TheVariants.{Display};

use crate::{Dev, Failed};

/// Two flash devices and a display. Each has a count of faults of its own (docs/CRASH.md).
///
/// A machine always tells its sizes and counts of faults (`specs/Told.antt`). What else it tells, it tells
/// before and after each call.
pub trait Machine {
    ghost told: { Self → Told };

    /// The number of bytes of a device, which never changes.
    fn size(&self, dev: Dev) -> u32
        ensures { result ≡ size_of dev (told self.now).sizes };

    /// Reads the bytes of a device from `at` on, as many as `into` has. It changes nothing but `into`.
    ///
    /// The caller owes that the range lies within the device. It fails only where that device's count of faults rose,
    /// and `into` may then hold anything.
    fn read(&mut self, dev: Dev, at: u32, into: &mut [u8]) -> Result<(), Failed>
        requires { at + length into.old ≤ size_of dev (told self.old).sizes }
        ensures ok { OnOk result (ForSome (told self.old).flashes
            (λ flashes. into.new ≡ part (flash_of dev flashes).content at (length into.old))) }
        ensures done { Does [] (told self.old) (told self.new) }
        ensures counts { Counts (port_of dev) result (told self.old).faults (told self.new).faults }
        ensures calls { IsCalled result (told self.old) (told self.new) };

    /// Puts bytes on a device from `at` on. They are dirty until a sync of the device.
    ///
    /// The caller owes that the range lies within the device. It fails only where that device's count of faults rose,
    /// and has then put any bytes into one part of the range, which may be none of it.
    fn write(&mut self, dev: Dev, at: u32, bytes: &[u8]) -> Result<(), Failed>
        requires { at + length bytes.now ≤ size_of dev (told self.old).sizes }
        ensures ok { OnOk result (Does (Put dev at bytes.now ∷ []) (told self.old) (told self.new)) }
        ensures torn { OnErr result (Runs (IsTornPut dev at (length bytes.now)) (told self.old) (told self.new)) }
        ensures counts { Counts (port_of dev) result (told self.old).faults (told self.new).faults }
        ensures calls { IsCalled result (told self.old) (told self.new) };

    /// Brings all that was put on a device to it: nothing of the device is dirty afterwards.
    ///
    /// It fails only where that device's count of faults rose, and has then done nothing.
    fn sync(&mut self, dev: Dev) -> Result<(), Failed>
        ensures ok { OnOk result (Does (Sync dev ∷ []) (told self.old) (told self.new)) }
        ensures err { OnErr result (Does [] (told self.old) (told self.new)) }
        ensures counts { Counts (port_of dev) result (told self.old).faults (told self.new).faults }
        ensures calls { IsCalled result (told self.old) (told self.new) };

    /// Shows bytes on the display, and changes no device.
    ///
    /// It fails only where the display's count of faults rose, and has then shown a front of the bytes, which
    /// stands in the trail if it isn't empty.
    fn show(&mut self, bytes: &[u8]) -> Result<(), Failed>
        ensures ok { OnOk result (Does (Show bytes.now ∷ []) (told self.old) (told self.new)) }
        ensures torn { OnErr result (Runs (IsTornShow bytes.now) (told self.old) (told self.new)) }
        ensures counts { Counts Display result (told self.old).faults (told self.new).faults }
        ensures calls { IsCalled result (told self.old) (told self.new) };

    // What is told of the flashes is as long as they are.
    ghost sized: { (machine : Self) → ForSome (told machine).flashes (AreSized (told machine).sizes) };

    // The devices have fewer than 2^32 bytes.
    ghost bounded: { (machine : Self) (dev : Dev) → size_of dev (told machine).sizes < 2 ^ 32 };
}
