//! The section whose load the frames of the devices tell.
ghost use Rattle.std.specs.Prelude.{◌≡◌, [], take, drop, IfOk, IfErr, IfSome, IfNone, MatchResult};
ghost use Rattle.std.specs.Int.{w32, from_be_bytes};
ghost use Rattle.std.specs.Option.{ForSome};
ghost use Rattle.urna_outside.specs.Faults.{FailsAt, IsFaultless};
ghost use Rattle.urna_outside.specs.Flash.{flash_of};
ghost use Rattle.urna_outside.specs.Told.{Does, port_of, size_of};
ghost use Rattle.urna_outside.specs.declared.device.Dev.TheVariants as dev;
ghost use Rattle.election_tables.specs.TablesData.{IsTables, section_with};
ghost use Rattle.urna_outside.specs.declared.device.Dev.{Dev};
ghost use Rattle.state_store.specs.Held.{AreLoaded, HasFrameOf, HasNoFrame, IsForeign};
ghost use Rattle.state_store.specs.Looking.{EndsLooking};
ghost use Rattle.state_store.specs.Load.{IsSectionOf};
ghost use Rattle.state_store.specs.Rest.{device_size};

use crate::load::header;
use election_tables::{Roll, Section, Tables};
use flash_store::has_frame;
use image_codec::BODY_SIZE;
use urna_base::be32;
use urna_outside::{Dev, Machine};

/// Where the zone and the section stand in a header, in four bytes each.
const ZONE: u32 = 9;

/// The section of the tables whose zone and number are written in eight bytes.
fn section_at(tables: &Tables, place: [u8; 8]) -> Option<Section>
    ensures section { result ≡ section_with (from_be_bytes w32 (take 4 place)) (from_be_bytes w32 (drop 4 place)) tables.now.sections }
    ensures tables { IsTables tables.now }
{
    let [a, b, c, d, e, f, g, h] = place;
    tables.find_section(be32([a, b, c, d]), be32([e, f, g, h]))
}

/// The section of the tables that the frame of a device names: with as many voters as the roll, and with its load's frame. None where
/// the device has the frame of no such section. It reads and does nothing else.
///
/// The caller owes that the device has the size of a flash. The device is answered only where its count of faults rose.
pub fn named_section<M: Machine>(
    tables: &Tables,
    roll: &Roll,
    m: &mut M,
    dev: Dev,
) -> Result<Option<Section>, Dev>
    requires { size_of dev (M.told m.old).sizes ≡ device_size }
    ensures section { IfOk result (λ found. IfSome found (IsSectionOf tables.now roll.now)) }
    ensures frame { IfOk result (λ found. ForSome (M.told m.old).flashes (λ flashes.
        IfSome found (λ section. HasFrameOf tables.now roll.now section dev (flash_of dev flashes).content))) }
    ensures none { IfOk result (λ found. ForSome (M.told m.old).flashes (λ flashes.
        IfNone found (HasNoFrame tables.now roll.now dev (flash_of dev flashes).content))) }
    ensures dev { IfErr result (λ failed. failed ≡ dev) }
    ensures done { Does [] (M.told m.old) (M.told m.new) }
    ensures fails { FailsAt port_of result (M.told m.old) (M.told m.new) }
{
    let mut place = [0; 8];
    let Ok(()) = m.read(dev, ZONE, &mut place) else {
        return Err(dev);
    };
    let Some(section) = section_at(tables, place) else {
        return Ok(None);
    };
    if section.voters != roll.len() {
        return Ok(None);
    }
    if !has_frame::<M, BODY_SIZE>(m, dev, &header(tables, roll, section, dev))? {
        return Ok(None);
    }
    Ok(Some(section))
}

/// Why no section's frame stands on both devices.
#[derive(Clone, Copy, Debug, PartialEq, Eq)]
pub(crate) enum FrameError {
    /// The device failed.
    Flash(Dev),
    /// The device has another frame.
    Foreign(Dev),
}

/// The section whose load both devices have the frame of. It reads and does nothing else.
pub(crate) fn loaded_section<M: Machine>(
    tables: &Tables,
    roll: &Roll,
    m: &mut M,
) -> Result<Section, FrameError>
    requires internal { size_of dev.Internal (M.told m.old).sizes ≡ device_size }
    requires external { size_of dev.External (M.told m.old).sizes ≡ device_size }
    ensures section { IfOk result (IsSectionOf tables.now roll.now) }
    ensures loaded { IfOk result (λ section. ForSome (M.told m.old).flashes
        (λ flashes. AreLoaded tables.now roll.now section flashes.internal.content flashes.external.content)) }
    ensures foreign { IfErr result (λ error. (d : Dev) → error ≡ FrameError.Foreign d → ForSome (M.told m.old).flashes
        (λ flashes. IsForeign tables.now roll.now d flashes.internal.content flashes.external.content)) }
    ensures done { Does [] (M.told m.old) (M.told m.new) }
    ensures fails { MatchResult result (λ section. IsFaultless (M.told m.old) (M.told m.new))
        (λ error. EndsLooking error (M.told m.old) (M.told m.new)) }
{
    let found = match named_section(tables, roll, m, Dev::Internal) {
        Ok(found) => found,
        Err(dev) => return Err(FrameError::Flash(dev)),
    };
    let Some(section) = found else {
        return Err(FrameError::Foreign(Dev::Internal));
    };
    let header = header(tables, roll, section, Dev::External);
    match has_frame::<M, BODY_SIZE>(m, Dev::External, &header) {
        Ok(true) => Ok(section),
        Ok(false) => Err(FrameError::Foreign(Dev::External)),
        Err(dev) => Err(FrameError::Flash(dev)),
    }
}
