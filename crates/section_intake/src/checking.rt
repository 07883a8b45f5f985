//! A file is checked by itself.
ghost use Rattle.std.specs.Prelude.{◌≡◌, ◌<◌, ◌^◌, length, IfErr, IfOk};
ghost use Rattle.section_intake.specs.Checked.{IsChecked};
ghost use Rattle.section_intake.specs.Reading.{IsRefused, field_refusal, part_refusal};
ghost use Rattle.section_intake.specs.Verdict.{IsReportFile, IsVerdict};
ghost use Rattle.section_intake.specs.declared.verdict.Verdict.{Verdict};

use crate::fitting::fits;
use crate::verdict::Verdict;
use election_tables::Tables;
use hash_chain::{PartError, PartFault, join_parts};
use poll_report::Report;
use qr_text::{FieldError, FieldFault, read_fields};
use std::alloc::Global;
use urna_base::Memory;

/// The verdict on a file by itself: `Accepted`, `Part`, `Fields` or `Strange` (docs/FORMATS.md, "Verdicts"); each file has one.
///
/// The caller owes that the file is shorter than 2^31 bytes. `Memory` comes only where an allocation failed.
pub fn check(alloc: Global, tables: &Tables, bytes: &[u8]) -> Result<Verdict, Memory>
    requires { length bytes.now < 2 ^ 31 }
    ensures verdict { IfOk result (λ v. IsVerdict tables.now bytes.now v) }
    ensures there { (v : Verdict) → IsVerdict tables.now bytes.now v → IfOk result (λ w. w ≡ v) }
{
    judge(alloc, tables, bytes)
}

/// The same, told of the answer that there is: that there is no other follows from the laws of files.
fn judge(alloc: Global, tables: &Tables, bytes: &[u8]) -> Result<Verdict, Memory>
    requires { length bytes.now < 2 ^ 31 }
    ensures { IfOk result (λ v. IsVerdict tables.now bytes.now v) }
{
    match check_report(alloc, tables, bytes)? {
        Checked::Report(report) => Ok(Verdict::Accepted {
            zone: report.zone,
            section: report.section,
        }),
        Checked::Refused(verdict) => Ok(verdict),
    }
}

/// What a file is by itself.
#[derive(Drop)]
pub enum Checked {
    /// It has a report, which fits the tables.
    Report(Report),
    /// It is refused.
    Refused(Verdict),
}

/// The report of a file that is accepted by itself, or the verdict that refuses it.
///
/// The caller owes that the file is shorter than 2^31 bytes. `Memory` comes only where an allocation failed.
pub fn check_report(alloc: Global, tables: &Tables, bytes: &[u8]) -> Result<Checked, Memory>
    requires { length bytes.now < 2 ^ 31 }
    ensures { IfOk result (IsChecked tables.now bytes.now) }
{
    match read_file(alloc, bytes) {
        Ok(report) => {
            if fits(tables, &report) {
                Ok(Checked::Report(report))
            } else {
                Ok(Checked::Refused(Verdict::Strange))
            }
        }
        Err(Refusal::Memory) => Err(Memory),
        Err(Refusal::Part(fault)) => Ok(Checked::Refused(Verdict::Part(fault))),
        Err(Refusal::Fields(fault)) => Ok(Checked::Refused(Verdict::Fields(fault))),
    }
}

/// Why a file gives no report.
pub enum Refusal {
    /// Memory ran out.
    Memory,
    /// It is no parts of a field text.
    Part(PartFault),
    /// The fields of its parts spell no report.
    Fields(FieldFault),
}

/// The report of a file, whatever tables it is of (docs/FORMATS.md, "Parts" and "Report text").
///
/// The caller owes that the file is shorter than 2^31 bytes. `Part` comes where its parts are at fault, `Fields` where those are whole and
/// their text spells no report, each with its first fault; `Memory` only where an allocation failed.
#[tactic(auto, using(hash_chain::proofs::Sizes::text_within_file))]
pub fn read_file(alloc: Global, bytes: &[u8]) -> Result<Report, Refusal>
    requires { length bytes.now < 2 ^ 31 }
    ensures ok { IfOk result (λ r. IsReportFile bytes.now r) }
    ensures err { IfErr result (λ e. IsRefused bytes.now e) }
{
    let text = join_parts(alloc, bytes)?;
    let report = read_fields(alloc, &text)?;
    Ok(report)
}

impl From<PartError> for Refusal {
    ghost from_gives = { λ error refusal. refusal ≡ part_refusal error };

    fn from(error: PartError) -> Refusal {
        match error {
            PartError::Memory => Refusal::Memory,
            PartError::Fault(fault) => Refusal::Part(fault),
        }
    }
}

impl From<FieldError> for Refusal {
    ghost from_gives = { λ error refusal. refusal ≡ field_refusal error };

    fn from(error: FieldError) -> Refusal {
        match error {
            FieldError::Memory => Refusal::Memory,
            FieldError::Fault(fault) => Refusal::Fields(fault),
        }
    }
}
