//! The listed reports are taken and offered, one behind the other.
ghost use Rattle.std.specs.Prelude.{◌≡◌, [], IfErr};
ghost use Rattle.section_intake.specs.Intake.{IsIntakeFor, accepted_files};
ghost use Rattle.urna_commands.specs.Offering.{OfferEnds, OffersEnd, TellsOf};

use crate::status::Status;
use crate::telling::tell_line;
use command_parts::Document;
use election_tables::Tables;
use key_script::Names;
use report_lines::numbered_line;
use section_intake::{Intake, Verdict};
use std::alloc::Global;
use urna_outside::{Cabinet, Machine};

/// What is told of each report that is offered.
#[derive(Clone, Copy)]
pub(crate) enum Telling {
    Verdicts,
    Nothing,
}

/// Each listed report is taken and offered, in order, and its verdict is told, where verdicts are. Answers how many were refused.
pub(crate) fn offer_all<M: Machine, C: Cabinet>(
    alloc: Global,
    tables: &Tables,
    list: &Names,
    telling: Telling,
    intake: &mut Intake,
    machine: &mut M,
    cabinet: &mut C,
) -> Result<u32, Status>
    requires made { IsIntakeFor tables.now intake.old }
    requires empty { accepted_files intake.old ≡ [] }
    ensures { OffersEnd telling tables.now list.now intake.new (C.told cabinet.old) (C.told cabinet.new) (M.told machine.old) (M.told machine.new) result }
{
    let mut refused = 0;
    for i in 0..list.len() {
        let verdict = offer(
            alloc,
            tables,
            list.name(i),
            i + 1,
            telling,
            intake,
            machine,
            cabinet,
        )?;
        if !verdict.is_accepted() {
            refused += 1;
        }
    }
    Ok(refused)
}

/// A report is taken and offered, and the verdict is told with its number in the list, where verdicts are.
fn offer<M: Machine, C: Cabinet>(
    alloc: Global,
    tables: &Tables,
    name: &str,
    number: u32,
    telling: Telling,
    intake: &mut Intake,
    machine: &mut M,
    cabinet: &mut C,
) -> Result<Verdict, Status>
    requires made { IsIntakeFor tables.now intake.old }
    ensures ends { OfferEnds telling tables.now (accepted_files intake.old) name.now number (C.told cabinet.old) (C.told cabinet.new) (M.told machine.old)
        (M.told machine.new) (accepted_files intake.new) result }
    ensures still { IsIntakeFor tables.now intake.new }
{
    let bytes = Vec::<u8>::take_document(alloc, cabinet, name)?;
    let verdict = intake.offer(tables, &bytes)?;
    tell_of(machine, telling, number, verdict)?;
    Ok(verdict)
}

/// Tells the verdict on the report of a number, where verdicts are told.
fn tell_of<M: Machine>(
    machine: &mut M,
    telling: Telling,
    number: u32,
    verdict: Verdict,
) -> Result<(), Status>
    ensures told { TellsOf telling number verdict (M.told machine.old) (M.told machine.new) result }
    ensures err { IfErr result (λ s. s ≡ Status.Display) }
{
    match telling {
        Telling::Verdicts => tell_line(machine, &numbered_line(number, verdict)),
        Telling::Nothing => Ok(()),
    }
}
