//! The line that tells the verdict on a report (docs/FORMATS.md, "Verdicts").
ghost use Rattle.std.specs.Prelude.{◌≡◌, ◌++◌, ◌≤◌, length};
ghost use Rattle.report_lines.specs.Verdicts.{field_fault_text, numbered_line, part_fault_text, section_text, verdict_line, verdict_text};

use hash_chain::PartFault;
use qr_text::FieldFault;
use section_intake::Verdict;
use urna_base::LineBuffer;

/// The line of a verdict, with its line feed.
pub fn verdict_line(verdict: Verdict) -> LineBuffer
    ensures { result ≡ verdict_line verdict }
{
    let mut line = LineBuffer::new();
    push_verdict(&mut line, verdict);
    line.push_text(b"\n");
    line
}

/// The line of the verdict on a report that has this number in a list.
#[tactic(auto, using(urna_base::proofs::DecimalLaws::line_lengths))]
pub fn numbered_line(number: u32, verdict: Verdict) -> LineBuffer
    ensures { result ≡ numbered_line number verdict }
{
    let mut line = LineBuffer::new();
    line.push_decimal(u64::from(number));
    line.push_text(b" ");
    push_verdict(&mut line, verdict);
    line.push_text(b"\n");
    line
}

/// Appends the text of a verdict.
fn push_verdict(line: &mut LineBuffer, verdict: Verdict)
    requires { length line.old ≤ 30 }
    ensures text { line.new ≡ line.old ++ verdict_text verdict }
    ensures short { length line.new ≤ 127 }
{
    match verdict {
        Verdict::Accepted { zone, section } => push_section(line, b"ACEITO ", zone, section),
        Verdict::Part(fault) => push_part(line, fault),
        Verdict::Fields(fault) => push_field(line, fault),
        Verdict::Strange => line.push_text(b"ESTRANHO"),
        Verdict::Repeated { zone, section } => push_section(line, b"REPETIDO ", zone, section),
        Verdict::Conflict { zone, section } => push_section(line, b"CONFLITO ", zone, section),
    }
}

/// Appends a word and a section.
fn push_section(line: &mut LineBuffer, word: &[u8], zone: u32, section: u32)
    requires room { length line.old ≤ 30 }
    requires word { length word.now ≤ 20 }
    ensures text { line.new ≡ line.old ++ section_text word.now zone section }
    ensures short { length line.new ≤ 127 }
{
    line.push_numbered(word, u64::from(zone));
    line.push_numbered(b" ", u64::from(section));
}

/// Appends the fault of a part.
fn push_part(line: &mut LineBuffer, fault: PartFault)
    requires { length line.old ≤ 30 }
    ensures text { line.new ≡ line.old ++ part_fault_text fault }
    ensures short { length line.new ≤ 127 }
{
    match fault {
        PartFault::Form(part) => line.push_numbered(b"PARTE FORMA ", u64::from(part)),
        PartFault::Version(part) => line.push_numbered(b"PARTE VERSAO ", u64::from(part)),
        PartFault::Number(part) => line.push_numbered(b"PARTE NUMERO ", u64::from(part)),
        PartFault::Hash(part) => line.push_numbered(b"PARTE HASH ", u64::from(part)),
        PartFault::Cut(part) => line.push_numbered(b"PARTE CORTE ", u64::from(part)),
    }
}

/// Appends the fault of a field.
fn push_field(line: &mut LineBuffer, fault: FieldFault)
    requires { length line.old ≤ 30 }
    ensures text { line.new ≡ line.old ++ field_fault_text fault }
    ensures short { length line.new ≤ 127 }
{
    match fault {
        FieldFault::Field(field) => line.push_numbered(b"CAMPO ", u64::from(field)),
        FieldFault::Sum { field, sum, said } => push_sum(line, field, sum, said),
    }
}

/// Appends a sum that is said otherwise.
fn push_sum(line: &mut LineBuffer, field: u32, sum: u64, said: u64)
    requires { length line.old ≤ 30 }
    ensures text { line.new ≡ line.old ++ field_fault_text (FieldFault.Sum field sum said) }
    ensures short { length line.new ≤ 127 }
{
    line.push_numbered(b"SOMA ", u64::from(field));
    line.push_numbered(b" ", sum);
    line.push_numbered(b" ", said);
}
