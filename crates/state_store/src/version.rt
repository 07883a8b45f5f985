//! Slots with another encoding of a state are brought to the one that is written today.
ghost use Rattle.std.specs.Prelude.{◌≡◌, length, IfOk};
ghost use Rattle.std.specs.Option.{ForSome};
ghost use Rattle.urna_outside.specs.Faults.{FailsAt};
ghost use Rattle.urna_outside.specs.Told.{Runs, port_of};
ghost use Rattle.gate_slot.specs.Front.{RunsUpTo};
ghost use Rattle.twin_image.specs.Level.{Stands, body_of};
ghost use Rattle.image_codec.specs.Encoding.{IsEncoding, encode};
ghost use Rattle.image_codec.specs.Layout.{body_size};
ghost use Rattle.state_store.specs.Calls.{BringsUp, IsBroughtUp};

use crate::ranks::Ranks;
use election_tables::Tables;
use image_codec::{BODY_SIZE, State, encode_into};
use twin_image::Level;
use urna_outside::{Dev, Machine};

/// Commits the encoding of a state where the four slots have another one of that state. At each stop both flashes, and each
/// alone, hold the state. It takes no memory.
///
/// The caller owes that the slots stand with an encoding of the state, and a buffer of the size of a body.
pub(crate) fn bring_up<M: Machine>(
    m: &mut M,
    tables: &Tables,
    state: &State,
    level: Level<BODY_SIZE>,
    next: &mut [u8],
) -> Result<Level<BODY_SIZE>, Dev>
    requires stands { Stands (M.told m.old) level }
    requires next { length next.old ≡ body_size }
    requires encoding { IsEncoding tables.now (length state.now.came) state.now (body_of level) }
    ensures level { IfOk result (λ level. Stands (M.told m.new) level) }
    ensures body { IfOk result (λ level. body_of level ≡ encode tables.now state.now) }
    ensures ran { Runs (BringsUp tables.now (length state.now.came) state.now (M.told m.old)) (M.told m.old) (M.told m.new) }
    ensures order { ForSome (M.told m.old).flashes
        (λ start. RunsUpTo result (IsBroughtUp tables.now state.now (body_of level)) (M.told m.old) (M.told m.new)) }
    ensures fails { FailsAt port_of result (M.told m.old) (M.told m.new) }
{
    encode_into(state, tables, next);
    let ranks = Ranks::of(tables, state.turnout().voters());
    let bytes: &[u8] = next;
    if level.body() == bytes {
        return Ok(level);
    }
    level.commit(m, &ranks, bytes)
}
