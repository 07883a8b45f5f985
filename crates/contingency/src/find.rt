//! Finding what the device beside a replaced one stands for.
ghost use Rattle.std.specs.Prelude.{◌≡◌, [], Some, length, IfOk, IfErr, IsSome, OnOk};
ghost use Rattle.std.specs.Option.{ForSome};
ghost use Rattle.urna_outside.specs.Faults.{IsFaultless};
ghost use Rattle.urna_outside.specs.Told.{Does};
ghost use Rattle.election_tables.specs.Roll.{IsRoll};
ghost use Rattle.election_tables.specs.TablesData.{IsTables};
ghost use Rattle.gate_slot.specs.Device.{OnFlash};
ghost use Rattle.image_codec.specs.Decoded.{rank_in};
ghost use Rattle.image_codec.specs.Layout.{body_size};
ghost use Rattle.twin_image.specs.Found.{found_body};
ghost use Rattle.twin_image.specs.Held.{held_alone};
ghost use Rattle.twin_image.specs.Slots.{AreClean, beside};
ghost use Rattle.state_store.specs.Held.{HasFrameOf};
ghost use Rattle.state_store.specs.Load.{IsSectionOf};
ghost use Rattle.state_store.specs.Rest.{IsInUse};
ghost use Rattle.state_store.specs.Store.{AreDevices};
ghost use Rattle.contingency.specs.Calls.{EndsTesting};

use crate::replacement::ReplaceError;
use election_tables::{Roll, Section, Tables};
use image_codec::BODY_SIZE;
use state_store::{Ranks, is_in_use, named_section};
use twin_image::{Found, SurveyError, Twin};
use urna_outside::{Dev, Machine};

/// The device that stands where this one is replaced.
pub(crate) fn beside(replaced: Dev) -> Dev
    ensures { result ≡ beside replaced }
{
    match replaced {
        Dev::Internal => Dev::External,
        Dev::External => Dev::Internal,
    }
}

/// The section whose load the standing device has the frame of, and the body that it alone holds, where the replaced one isn't in
/// use. It reads and does nothing else.
///
/// The caller owes that both devices have the size of a flash, and that nothing is dirty. The errors come as those of `replace`, and
/// `Memory` never.
pub(crate) fn find<M: Machine>(
    tables: &Tables,
    roll: &Roll,
    twin: Twin<BODY_SIZE>,
    m: &mut M,
    replaced: Dev,
) -> Result<(Section, Found<BODY_SIZE>), ReplaceError>
    requires devices { AreDevices (M.told m.old).sizes }
    requires clean { ForSome (M.told m.old).flashes AreClean }
    ensures tables { OnOk result (IsTables tables.now) }
    ensures roll { OnOk result (IsRoll roll.now) }
    ensures section { IfOk result (λ found. IsSectionOf tables.now roll.now found.0) }
    ensures frame { IfOk result (λ found. OnFlash (beside replaced)
        (λ flash. HasFrameOf tables.now roll.now found.0 (beside replaced) flash.content) (M.told m.old)) }
    ensures held { IfOk result (λ found. OnFlash (beside replaced)
        (λ flash. held_alone (rank_in tables.now (length roll.now.titles)) body_size flash.content ≡ Some (found_body found.1))
        (M.told m.old)) }
    ensures ranked { IfOk result (λ found. IsSome (rank_in tables.now (length roll.now.titles) (found_body found.1))) }
    ensures whole { IfOk result (λ found. length (found_body found.1) ≡ body_size) }
    ensures unused { OnOk result (OnFlash replaced (λ flash. ¬ IsInUse flash.content) (M.told m.old)) }
    ensures done { Does [] (M.told m.old) (M.told m.new) }
    ensures fine { OnOk result (IsFaultless (M.told m.old) (M.told m.new)) }
    ensures fails { IfErr result (EndsTesting tables.now roll.now replaced (M.told m.old) (M.told m.new)) }
{
    let standing = beside(replaced);
    let named = match named_section(tables, roll, m, standing) {
        Ok(named) => named,
        Err(dev) => return Err(ReplaceError::Flash(dev)),
    };
    let Some(section) = named else {
        return Err(ReplaceError::Foreign(standing));
    };
    let ranks = Ranks::of(tables, roll.len());
    let found = match twin.survey_on(m, &ranks, standing) {
        Ok(found) => found,
        Err(SurveyError::Flash(dev)) => return Err(ReplaceError::Flash(dev)),
        Err(SurveyError::NoImage) => return Err(ReplaceError::NoStanding(standing)),
    };
    match is_in_use(m, replaced) {
        Ok(false) => Ok((section, found)),
        Ok(true) => Err(ReplaceError::Busy(replaced)),
        Err(dev) => Err(ReplaceError::Flash(dev)),
    }
}
