//! The line that tells what a recount finds, and the status that it gives.
ghost use Rattle.std.specs.Prelude.{◌≡◌, ◌++◌, ◌∷◌, [], ◌≤◌, codes, length};
ghost use Rattle.record_audit.specs.Spelling.{codes_in};
ghost use Rattle.urna_commands.specs.Findings.{choice_text, code_at, finding_status, finding_text};
ghost use Rattle.urna_commands.specs.Taking.{status_in};

use crate::status::Status;
use record_audit::{Finding, RecordText};
use urna_base::LineBuffer;
use vote_kinds::Choice;

/// The line of a finding in this record, with its line feed.
pub(crate) fn finding_line(text: &RecordText, finding: Finding) -> LineBuffer
    ensures { result ≡ finding_text (codes_in text.now.offices) finding ++ 10 ∷ [] }
{
    let mut line = LineBuffer::new();
    match finding {
        Finding::Agree => line.push_text(b"CONFERE"),
        Finding::Heading => line.push_text(b"DIFERE CABECALHO"),
        Finding::Office(place) => line.push_numbered(b"DIFERE CARGOS ", u64::from(place)),
        Finding::Differs {
            panel,
            choice,
            lines,
            said,
        } => {
            line.push_numbered(b"DIFERE CARGO ", u64::from(code_at(text, panel)));
            push_choice(&mut line, choice);
            line.push_numbered(b" REGISTRO ", lines);
            line.push_numbered(b" BOLETIM ", said);
        }
    }
    line.push_text(b"\n");
    line
}

/// The code of the office of a panel; 0 where the record has no such panel.
fn code_at(text: &RecordText, panel: u32) -> u8
    ensures { result ≡ code_at (codes_in text.now.offices) panel }
{
    match text.offices.as_slice().get(panel as usize) {
        Some(office) => office.code,
        None => 0,
    }
}

/// Appends a space and the words of a choice.
fn push_choice(line: &mut LineBuffer, choice: Choice)
    requires { length line.old ≤ 33 }
    ensures text { line.new ≡ line.old ++ (codes " " ++ choice_text choice) }
    ensures short { length line.new ≤ 62 }
{
    match choice {
        Choice::Nominal(number) => line.push_numbered(b" NOMINAL ", u64::from(number)),
        Choice::Party(number) => line.push_numbered(b" LEGENDA ", u64::from(number)),
        Choice::Blank => line.push_text(b" BRANCO"),
        Choice::Null => line.push_text(b" NULO"),
    }
}

/// How a command ends by a finding: a record that doesn't agree with the report has a status of its own.
pub(crate) fn ended_by_finding(finding: Finding) -> Result<(), Status>
    ensures { status_in result ≡ finding_status finding }
{
    match finding {
        Finding::Agree => Ok(()),
        other => Err(Status::Disagrees(other)),
    }
}
