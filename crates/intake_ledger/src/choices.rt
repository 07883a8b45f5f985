//! The choices of all panels, which have a sum each.
ghost use Rattle.std.specs.Prelude.{◌≡◌, ◌+◌, ◌<◌, ◌≤◌, ◌++◌, length, IfOk, vec_capacity, vec_len};
ghost use Rattle.election_tables.specs.TablesData.{IsTables};
ghost use Rattle.vote_kinds.specs.Ballot.{choices_of, line_of};
ghost use Rattle.intake_ledger.specs.Layout.{most_sums};
ghost use Rattle.intake_ledger.specs.Ledger.{choices_in, panel_choices};

use election_tables::Tables;
use std::alloc::Global;
use urna_base::Memory;
use vote_kinds::{Choice, choice_at, choice_count};

/// How many choices all panels have.
pub(crate) fn sum_count(tables: &Tables) -> u32
    ensures count { result ≡ length (panel_choices tables.now) }
    ensures few { result ≤ most_sums }
    ensures tables { IsTables tables.now }
{
    let panels = tables.panels();
    let mut count = 0;
    for panel in 0..panels {
        count += choice_count(tables, panel);
    }
    count
}

/// The choices of all panels in order, each with its panel. `Memory` comes only where an allocation failed.
pub(crate) fn all_choices(alloc: Global, tables: &Tables) -> Result<Vec<(u32, Choice)>, Memory>
    ensures choices { IfOk result (λ choices. choices.items ≡ panel_choices tables.now) }
    ensures few { IfOk result (λ choices. length choices.items ≤ most_sums) }
    ensures tables { IsTables tables.now }
{
    let count = sum_count(tables);
    let mut choices = Vec::with_capacity(alloc, count as usize)?;
    for panel in 0..tables.panels() {
        put_panel(&mut choices, tables, panel);
    }
    Ok(choices)
}

/// Puts the choices of a panel behind the others.
fn put_panel(choices: &mut Vec<(u32, Choice)>, tables: &Tables, panel: u32)
    requires panel { panel < length tables.now.panels }
    requires reserved { vec_len choices.old + length (choices_of (line_of tables.now panel)) ≤ vec_capacity choices.old }
    ensures put { choices.new.items ≡ choices.old.items ++ choices_in (line_of tables.now panel) }
    ensures memory { vec_capacity choices.new ≡ vec_capacity choices.old }
{
    for place in 0..choice_count(tables, panel) {
        choices.push_reserved((panel, choice_at(tables, panel, place)));
    }
}
