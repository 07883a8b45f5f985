//! Files of reports, offered one behind the other (the crate `section_intake`): their sums, also of numbers that the tables lack, and the contest
//! of their votes (the crate `totals`).
ghost use Rattle.std.specs.Prelude.{◌<◌, length};
ghost use Rattle.section_intake.specs.Intake.{IsIntakeFor, panels_of};

use crate::files::REPORT;
use crate::reports::TABLES;
use election_tables::Tables;
use seat_remainders::{Contest, Contestant, Entry};
use section_intake::{Intake, Verdict};
use std::alloc::Global;
use std::process::Abort;
use std::test::Fail;
use totals::contest_of;

/// The report of the other section, of whose voters four came: two party votes and two null ones; then three votes for candidate 45 and a
/// blank one.
const OTHER_REPORT: &[u8] = b"QRBU:1:1 VRQR:U1 \
     ORIG:VOTA PROC:7 DTPL:20261004 TURN:1 ZONA:2 SECA:1 APTO:5 COMP:4 FALT:1 \
     DTAB:20261004 HRAB:080000 DTFC:20261004 HRFC:170000 \
     CARG:13 TIPO:1 PART:45 LEGP:2 TOTP:2 APTA:5 NOMI:0 LEGC:2 BRAN:0 NULO:2 TOTC:4 \
     CARG:11 TIPO:0 45:3 APTA:5 NOMI:3 BRAN:1 NULO:0 TOTC:4 \
     HASH:F6242FCBF6DDF5E216E03E93AE9CFFB9C74B0F93D4AB6C4081FE21D9EB8AB7F3\
     6A006FD948E25BA5C55135A3EA6A33873015361714B398D838EFA5F63C0AF6D4\n";

/// The sums of a panel: of the candidates 13001, 13, 45 and 99, of the parties 13, 45 and 99, some of which the tables lack, and of blank
/// and null votes.
type Sums = [u64; 9];

/// The sums of both panels.
const NO_SUMS: [Sums; 2] = [[0; 9], [0; 9]];

const FIRST_SUMS: [Sums; 2] = [[1, 0, 0, 0, 0, 1, 0, 1, 0], [0, 1, 1, 0, 0, 0, 0, 0, 1]];

const BOTH_SUMS: [Sums; 2] = [[1, 0, 0, 0, 0, 3, 0, 1, 2], [0, 1, 4, 0, 0, 0, 0, 1, 1]];

/// The candidates of the first office, each alone in its party, over both reports.
const ANA: Entry = Entry {
    number: 13_001,
    birth: 19_700_101,
    votes: 1,
};

const BRUNO: Entry = Entry {
    number: 45_001,
    birth: 19_650_520,
    votes: 0,
};

fn sums_of(intake: &Intake, panel: u32) -> Sums
    requires { panel < panels_of intake.now }
{
    [
        intake.nominal(panel, 13_001),
        intake.nominal(panel, 13),
        intake.nominal(panel, 45),
        intake.nominal(panel, 99),
        intake.party(panel, 13),
        intake.party(panel, 45),
        intake.party(panel, 99),
        intake.blank(panel),
        intake.null_votes(panel),
    ]
}

/// The first panel whose sums are others.
fn other_sums(tables: &Tables, intake: &Intake, want: &[Sums]) -> Option<u32>
    requires { IsIntakeFor tables.now intake.now }
{
    for panel in 0..tables.panels() {
        if want.get(panel as usize) != Some(&sums_of(intake, panel)) {
            return Some(panel);
        }
    }
    None
}

/// So many files are accepted, and the sums of both panels are these.
fn check_sums(rt: &impl Abort, tables: &Tables, intake: &Intake, accepted: u32, want: &[Sums])
    requires { IsIntakeFor tables.now intake.now }
{
    assert!(rt; intake.accepted() == accepted);
    assert!(rt;
        other_sums(tables, intake, want) == None,
        "{accepted} accepted"
    );
}

/// A file is offered, and is accepted as the report of a section.
fn check_offer(
    rt: &impl Abort,
    tables: &Tables,
    intake: &mut Intake,
    file: &[u8],
    section: (u32, u32),
) -> Result<(), Fail>
    requires { IsIntakeFor tables.now intake.old }
    ensures { IsIntakeFor tables.now intake.new }
{
    assert!(rt; file.len() < 10_000);
    let verdict = intake.offer(tables, file)?;
    let (zone, section) = section;
    assert!(rt; verdict == Verdict::Accepted { zone, section });
    Ok(())
}

/// Whether a party has this number, these votes and this candidate alone.
fn is_party(party: &Contestant, number: u8, votes: u64, candidate: Entry) -> bool {
    party.number == number
        && party.party_votes == votes
        && party.candidates.as_slice() == [candidate].as_slice()
}

/// Whether a contest is that of the first office over both reports.
fn is_of_both(contest: &Contest) -> bool {
    match contest.parties.as_slice() {
        [first, second] => {
            contest.seats == 5 && is_party(first, 13, 0, ANA) && is_party(second, 45, 3, BRUNO)
        }
        _ => false,
    }
}

/// Whether the contest of the first office is that of both reports.
fn has_contest(alloc: Global, tables: &Tables, intake: &Intake) -> Result<bool, Fail>
    requires panel { 0 < length tables.now.panels }
    requires made { IsIntakeFor tables.now intake.now }
{
    Ok(is_of_both(&contest_of(alloc, tables, intake, 0)?))
}

/// Two reports are offered to an intake. Its sums, and then the contest, are those of both.
fn check_intake(
    rt: &(impl Abort + AllocGlobal),
    tables: &Tables,
    intake: &mut Intake,
) -> Result<(), Fail>
    requires { IsIntakeFor tables.now intake.old }
{
    check_sums(rt, tables, intake, 0, &NO_SUMS);
    check_offer(rt, tables, intake, REPORT, (1, 42))?;
    check_sums(rt, tables, intake, 1, &FIRST_SUMS);
    check_offer(rt, tables, intake, OTHER_REPORT, (2, 1))?;
    check_sums(rt, tables, intake, 2, &BOTH_SUMS);
    assert!(rt; tables.panels() != 0);
    assert!(rt; has_contest(rt.alloc(), tables, intake)?);
    Ok(())
}

/// The same to a new intake.
fn check_new_intake(rt: &(impl Abort + AllocGlobal), tables: &Tables) -> Result<(), Fail> {
    let mut intake = Intake::new(rt.alloc(), tables)?;
    check_intake(rt, tables, &mut intake)
}

#[test]
fn one_report_of_each_section_counts(rt: HostRuntime) -> Result<(), Fail> {
    let tables = Tables::read(rt.alloc(), TABLES)?;
    check_new_intake(&rt, &tables)
}
