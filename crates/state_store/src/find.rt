//! Finding the poll that both flashes hold.
ghost use Rattle.std.specs.Prelude.{[], length, IfOk, IfErr, IsSome, OnOk};
ghost use Rattle.std.specs.Option.{ForSome};
ghost use Rattle.urna_outside.specs.Faults.{IsFaultless};
ghost use Rattle.urna_outside.specs.Told.{Does};
ghost use Rattle.election_tables.specs.Roll.{IsRoll};
ghost use Rattle.election_tables.specs.TablesData.{IsTables};
ghost use Rattle.image_codec.specs.Decoded.{rank_in};
ghost use Rattle.twin_image.specs.Found.{found_body};
ghost use Rattle.twin_image.specs.Held.{HoldsBody};
ghost use Rattle.twin_image.specs.Slots.{AreClean};
ghost use Rattle.image_codec.specs.Layout.{body_size};
ghost use Rattle.state_store.specs.Finding.{EndsFinding};
ghost use Rattle.state_store.specs.Held.{AreLoaded};
ghost use Rattle.state_store.specs.Load.{IsSectionOf};
ghost use Rattle.state_store.specs.Store.{AreDevices};

use crate::frame::{FrameError, loaded_section};
use crate::ranks::Ranks;
use crate::store::StoreError;
use election_tables::{Roll, Section, Tables};
use image_codec::BODY_SIZE;
use twin_image::{Found, SurveyError, Twin};
use urna_outside::Machine;

/// The section whose load both devices have the frame of, and the body that they hold. It reads and does nothing else.
/// The caller owes that nothing is dirty.
pub(crate) fn find<M: Machine>(
    tables: &Tables,
    roll: &Roll,
    twin: Twin<BODY_SIZE>,
    m: &mut M,
) -> Result<(Section, Found<BODY_SIZE>), StoreError>
    requires devices { AreDevices (M.told m.old).sizes }
    requires clean { ForSome (M.told m.old).flashes AreClean }
    ensures tables { OnOk result (IsTables tables.now) }
    ensures roll { OnOk result (IsRoll roll.now) }
    ensures section { IfOk result (λ found. IsSectionOf tables.now roll.now found.0) }
    ensures loaded { IfOk result (λ found. ForSome (M.told m.old).flashes
        (λ flashes. AreLoaded tables.now roll.now found.0 flashes.internal.content flashes.external.content)) }
    ensures held { IfOk result (λ found. ForSome (M.told m.old).flashes
        (HoldsBody (rank_in tables.now (length roll.now.titles)) body_size (found_body found.1))) }
    ensures ranked { IfOk result (λ found. IsSome (rank_in tables.now (length roll.now.titles) (found_body found.1))) }
    ensures done { Does [] (M.told m.old) (M.told m.new) }
    ensures fine { OnOk result (IsFaultless (M.told m.old) (M.told m.new)) }
    ensures fails { IfErr result (EndsFinding tables.now roll.now (M.told m.old) (M.told m.new)) }
{
    let section = match loaded_section(tables, roll, m) {
        Ok(section) => section,
        Err(FrameError::Flash(dev)) => return Err(StoreError::Flash(dev)),
        Err(FrameError::Foreign(dev)) => return Err(StoreError::Foreign(dev)),
    };
    let ranks = Ranks::of(tables, roll.len());
    match twin.survey(m, &ranks) {
        Ok(found) => Ok((section, found)),
        Err(SurveyError::Flash(dev)) => Err(StoreError::Flash(dev)),
        Err(SurveyError::NoImage) => Err(StoreError::NoImage),
    }
}
