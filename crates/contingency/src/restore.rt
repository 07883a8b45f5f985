//! A replaced device is brought to what the one beside it holds.
ghost use Rattle.std.specs.Prelude.{◌≡◌, ◌≤◌, Some, length, IfErr, OnErr, OnOk};
ghost use Rattle.std.specs.Option.{ForSome};
ghost use Rattle.urna_outside.specs.Faults.{FailsAt};
ghost use Rattle.urna_outside.specs.Flash.{IsClean};
ghost use Rattle.urna_outside.specs.Told.{Runs, port_of, size_of};
ghost use Rattle.election_tables.specs.Limits.{most_voters};
ghost use Rattle.election_tables.specs.TablesData.{IsTables};
ghost use Rattle.gate_slot.specs.Device.{OnFlash};
ghost use Rattle.gate_slot.specs.Front.{IsUpTo};
ghost use Rattle.gate_slot.specs.Slot.{header_size};
ghost use Rattle.image_codec.specs.Decoded.{rank_in};
ghost use Rattle.image_codec.specs.Encoding.{IsEncoding, encode};
ghost use Rattle.image_codec.specs.Layout.{body_size};
ghost use Rattle.twin_image.specs.Frame.{FrameStands};
ghost use Rattle.twin_image.specs.Held.{held_alone};
ghost use Rattle.twin_image.specs.Level.{IsLevel};
ghost use Rattle.twin_image.specs.Slots.{AreClean, beside};
ghost use Rattle.twin_image.specs.Twin.{IsTwin};
ghost use Rattle.state_store.specs.Rest.{device_size};
ghost use Rattle.state_store.specs.Store.{AreDevices};
ghost use Rattle.contingency.specs.Restored.{AreBroughtUp, Brings, IsRestored, Restores};

use crate::find::beside;
use election_tables::Tables;
use gate_slot::Changes;
use image_codec::{BODY_SIZE, State, encode_into};
use twin_image::{lay_on, mend_twin, renew_on};
use urna_outside::{Dev, Machine};

/// Brings both slots of a device to the body that it holds, and then, where that is another encoding of the state than the one that is
/// written today, to this one. At each stop the device alone holds the state.
///
/// The caller owes that the device has the size of a flash and no dirty byte, that it holds this body, which is an encoding of the
/// state, and a buffer of the size of a body, in which the encoding then stands. The device is answered only where its count rose.
pub(crate) fn bring_up<M: Machine>(
    m: &mut M,
    tables: &Tables,
    state: &State,
    dev: Dev,
    body: &[u8],
    next: &mut [u8],
) -> Result<(), Dev>
    requires size { size_of dev (M.told m.old).sizes ≡ device_size }
    requires clean { OnFlash dev IsClean (M.told m.old) }
    requires tables { IsTables tables.now }
    requires few { length state.now.came ≤ most_voters }
    requires encoding { IsEncoding tables.now (length state.now.came) state.now body.now }
    requires held { OnFlash dev (λ flash. held_alone (rank_in tables.now (length state.now.came)) body_size flash.content ≡ Some body.now)
        (M.told m.old) }
    requires body { length body.now ≡ body_size }
    requires next { length next.old ≡ body_size }
    ensures next { OnOk result (next.new ≡ encode tables.now state.now) }
    ensures twin { OnOk result (OnFlash dev (IsTwin body_size (encode tables.now state.now)) (M.told m.new)) }
    ensures clean { OnOk result (OnFlash dev IsClean (M.told m.new)) }
    ensures dev { IfErr result (λ failed. failed ≡ dev) }
    ensures ran { Runs (Brings tables.now state.now dev (M.told m.old)) (M.told m.old) (M.told m.new) }
    ensures exact { OnOk result (OnFlash dev
        (λ flash. Runs (AreBroughtUp tables.now state.now dev body.now flash.content) (M.told m.old) (M.told m.new)) (M.told m.old)) }
    ensures cut { OnErr result (OnFlash dev
        (λ flash. Runs (IsUpTo (AreBroughtUp tables.now state.now dev body.now flash.content)) (M.told m.old) (M.told m.new)) (M.told m.old)) }
    ensures fails { FailsAt port_of result (M.told m.old) (M.told m.new) }
{
    let lives = mend_twin::<M, BODY_SIZE>(m, dev, body, next)?;
    encode_into(state, tables, next);
    let bytes: &[u8] = next;
    if body == bytes {
        return Ok(());
    }
    let _renewed = renew_on(m, dev, lives, body, bytes, &Changes::of(body, bytes))?;
    Ok(())
}

/// Brings the device beside the replaced one up to the encoding that is written today, and then loads the replaced one with it.
///
/// The caller owes that both devices have the size of a flash and no dirty byte, that the one beside the replaced one holds this body,
/// which is an encoding of the state, a header, and a buffer of the size of a body. A device is answered only where its count rose.
pub(crate) fn restore<M: Machine>(
    m: &mut M,
    tables: &Tables,
    state: &State,
    replaced: Dev,
    header: &[u8],
    body: &[u8],
    next: &mut [u8],
) -> Result<(), Dev>
    requires devices { AreDevices (M.told m.old).sizes }
    requires clean { ForSome (M.told m.old).flashes AreClean }
    requires tables { IsTables tables.now }
    requires few { length state.now.came ≤ most_voters }
    requires header { length header.now ≡ header_size }
    requires encoding { IsEncoding tables.now (length state.now.came) state.now body.now }
    requires held { OnFlash (beside replaced)
        (λ flash. held_alone (rank_in tables.now (length state.now.came)) body_size flash.content ≡ Some body.now) (M.told m.old) }
    requires body { length body.now ≡ body_size }
    requires next { length next.old ≡ body_size }
    ensures level { OnOk result (ForSome (M.told m.new).flashes (IsLevel body_size (encode tables.now state.now))) }
    ensures frame { OnOk result (OnFlash replaced (FrameStands body_size header.now) (M.told m.new)) }
    ensures ran { Runs (Restores tables.now state.now replaced header.now (M.told m.old)) (M.told m.old) (M.told m.new) }
    ensures exact { OnOk result (ForSome (M.told m.old).flashes
        (λ start. Runs (IsRestored tables.now state.now replaced header.now body.now start) (M.told m.old) (M.told m.new))) }
    ensures cut { OnErr result (ForSome (M.told m.old).flashes
        (λ start. Runs (IsUpTo (IsRestored tables.now state.now replaced header.now body.now start)) (M.told m.old) (M.told m.new))) }
    ensures fails { FailsAt port_of result (M.told m.old) (M.told m.new) }
{
    bring_up(m, tables, state, beside(replaced), body, next)?;
    let _lives = lay_on::<M, BODY_SIZE>(m, replaced, header, next)?;
    Ok(())
}
