//! The memory of a ledger.
ghost use Rattle.std.specs.Prelude.{◌≡◌, IfOk, OnOk};
ghost use Rattle.election_tables.specs.TablesData.{IsTables};
ghost use Rattle.intake_ledger.specs.Body.{number_in};
ghost use Rattle.intake_ledger.specs.Ledger.{empty_ledger};
ghost use Rattle.intake_ledger.specs.Totals.{AreTotals};

use crate::layout::{BODY_SIZE, VERSION};
use crate::sums::Totals;
use election_tables::Tables;
use std::alloc::Global;
use twin_image::Twin;
use urna_base::{Memory, zeros};

/// All the memory that a ledger takes: the buffers of a survey, and the totals of the ledger before the first report.
#[derive(Drop)]
pub(crate) struct Room {
    pub(crate) twin: Twin<BODY_SIZE>,
    pub(crate) totals: Totals,
}

impl Room {
    /// Takes it. `Memory` comes only where an allocation failed.
    pub(crate) fn new(alloc: Global, tables: &Tables) -> Result<Room, Memory>
        ensures empty { IfOk result (λ room. AreTotals tables.now (empty_ledger tables.now) room.totals) }
        ensures number { IfOk result (λ room. number_in room.totals.body ≡ 0) }
        ensures tables { OnOk result (IsTables tables.now) }
    {
        let twin = Twin::new(alloc)?;
        let mut body = zeros(alloc, BODY_SIZE)?;
        body[0] = VERSION;
        let totals = Totals::new(alloc, tables, body)?;
        Ok(Room { twin, totals })
    }
}
