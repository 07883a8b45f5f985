//! The contest of an office over the accepted reports of a list.
ghost use Rattle.std.specs.Prelude.{◌≢◌, ◌<◌, ℕ, List, length, IfErr, IfOk, MatchOption, MatchResult};
ghost use Rattle.urna_outside.specs.Cabinet.{CabinetTold};
ghost use Rattle.seat_remainders.specs.Contest.{IsContest};
ghost use Rattle.command_parts.specs.Documents.{HasNames, HasTables, IsListed};
ghost use Rattle.urna_commands.specs.Office.{ContestStops, HasNoOffice, IsContestFault, IsContestKnown, IsOfficeAt};
ghost use Rattle.urna_commands.specs.Taking.{HasTaken, status_in};

use crate::offering::{Telling, offer_all};
use crate::status::Status;
use command_parts::Document;
use election_tables::{Kind, Tables};
use key_script::Names;
use seat_remainders::Contest;
use section_intake::Intake;
use std::alloc::Global;
use totals::contest_of;
use urna_outside::{Cabinet, Machine};

/// The contest of the proportional office of a code, over the accepted reports that a list names: the tables are taken and have such an
/// office, the list is taken, and each listed report is taken and offered, as `totaliza` does it, but nothing is told of it.
pub(crate) fn contest_of_office<M: Machine, C: Cabinet>(
    alloc: Global,
    tables: &str,
    list: &str,
    code: u8,
    machine: &mut M,
    cabinet: &mut C,
) -> Result<Contest, Status>
    ensures known { MatchResult result (λ contest. IsContestKnown tables.now list.now code contest (C.told cabinet.old) (C.told cabinet.new) (M.told machine.old) (M.told machine.new))
        (λ s. ContestStops tables.now list.now code (C.told cabinet.old) (C.told cabinet.new) (M.told machine.old) (M.told machine.new) s) }
    ensures lawful { IfOk result IsContest }
{
    let (tables, panel, list) = take_office(alloc, cabinet, tables, list, code)?;
    contest_over(alloc, &tables, panel, &list, machine, cabinet)
}

/// The contest of a panel over the accepted reports that a list names. What was taken is lent, so that no way out lets go of it.
fn contest_over<M: Machine, C: Cabinet>(
    alloc: Global,
    tables: &Tables,
    panel: u32,
    list: &Names,
    machine: &mut M,
    cabinet: &mut C,
) -> Result<Contest, Status>
    requires panel { panel < length tables.now.panels }
    ensures known { (tables_name list_name : List ℕ) (code : ℕ) (c : CabinetTold) → IsListed c.files tables_name list_name tables.now list.now → IsOfficeAt tables.now code panel
        → HasTaken 2 Status.Done c (C.told cabinet.old)
        → MatchResult result (λ contest. IsContestKnown tables_name list_name code contest c (C.told cabinet.new) (M.told machine.old) (M.told machine.new))
        (λ s. ContestStops tables_name list_name code c (C.told cabinet.new) (M.told machine.old) (M.told machine.new) s) }
    ensures lawful { IfOk result IsContest }
{
    let mut intake = Intake::new(alloc, tables)?;
    offer_all(
        alloc,
        tables,
        list,
        Telling::Nothing,
        &mut intake,
        machine,
        cabinet,
    )?;
    let contest = contest_of(alloc, tables, &intake, panel)?;
    Ok(contest)
}

/// The tables, the panel of the office of a code, and the list.
fn take_office<C: Cabinet>(
    alloc: Global,
    cabinet: &mut C,
    tables: &str,
    list: &str,
    code: u8,
) -> Result<(Tables, u32, Names), Status>
    ensures tables { IfOk result (λ all. HasTables (C.told cabinet.old).files tables.now all.0) }
    ensures office { IfOk result (λ all. IsOfficeAt all.0 code all.1) }
    ensures list { IfOk result (λ all. HasNames (C.told cabinet.old).files list.now all.2) }
    ensures fault { IfErr result (λ s. s ≢ Status.Memory → s ≢ Status.Cabinet → IsContestFault (C.told cabinet.old).files tables.now list.now code s) }
    ensures taken { HasTaken 2 (status_in result) (C.told cabinet.old) (C.told cabinet.new) }
{
    let tables = Tables::take_document(alloc, cabinet, tables)?;
    let Some(panel) = panel_of(&tables, code) else {
        return Err(Status::NoOffice);
    };
    let list = Names::take_document(alloc, cabinet, list)?;
    Ok((tables, panel, list))
}

/// The panel of the proportional office of a code, if the tables have one.
fn panel_of(tables: &Tables, code: u8) -> Option<u32>
    ensures { MatchOption result (HasNoOffice tables.now code) (IsOfficeAt tables.now code) }
{
    for panel in 0..tables.panels() {
        let office = tables.office(panel);
        if office.code == code && office.kind == Kind::Proportional {
            return Some(panel);
        }
    }
    None
}
