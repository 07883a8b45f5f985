//! How a header names its device.
ghost use Rattle.std.specs.Prelude.{◌≡◌};
ghost use Rattle.flash_store.specs.Device.{device_byte};

use urna_outside::Dev;

/// The byte of a header that names its device (docs/FORMATS.md, "Header" and "Header of a ledger").
pub fn device_byte(dev: Dev) -> u8
    ensures { result ≡ device_byte dev }
{
    match dev {
        Dev::Internal => 1,
        Dev::External => 2,
    }
}
