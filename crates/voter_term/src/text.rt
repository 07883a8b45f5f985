ghost use Rattle.std.specs.Prelude.{◌≡◌, ◌+◌, ◌<◌, ◌≤◌, ◌++◌, Option, length, take, drop};
ghost use Rattle.election_tables.specs.Limits.{longest_name};
ghost use Rattle.vote_kinds.specs.Ballot.{IsField, line_of};
ghost use Rattle.voter_term.specs.Screen.{choice_text, field_text, screen_text, shown_choice};

use election_tables::Tables;
use urna_base::LineBuffer;
use vote_kinds::{Choice, Field, choice_of, confirmable, office_digits};

/// The screen line of a panel's field (docs/FORMATS.md, "Shown texts"). Where CONFIRMA is taken at the field, the line shows the choice that
/// it stands for; `before` is the same voter's choice of the line before, if there is one and it is of the same panel.
///
/// The caller owes that the panel is one of the tables, and that the field has no more digits than the panel's office.
pub fn screen_line(tables: &Tables, panel: u32, before: Option<Choice>, field: Field) -> LineBuffer
    requires panel { panel < length tables.now.panels }
    requires field { IsField (line_of tables.now panel).digits field }
    ensures { result ≡ screen_text tables.now panel before field }
{
    // an office has at most five digits
    let _digits = office_digits(tables, panel);
    let choice = shown_choice(tables, panel, before, field);
    let mut line = LineBuffer::new();
    line.push_text(b"TELA ");
    push_field(&mut line, field);
    push_choice(&mut line, tables, panel, choice);
    line.push_text(b"\n");
    line
}

/// Puts the screen line at the front of `into`, and tells its length. The caller owes what `screen_line` asks for.
pub fn screen(
    tables: &Tables,
    panel: u32,
    before: Option<Choice>,
    field: &Field,
    into: &mut [u8; 128],
) -> u32
    requires panel { panel < length tables.now.panels }
    requires field { IsField (line_of tables.now panel).digits field.now }
    ensures length { result ≡ length (screen_text tables.now panel before field.now) }
    ensures line { take result into.new ≡ screen_text tables.now panel before field.now }
    ensures rest { drop result into.new ≡ drop result into.old }
    ensures fits { result ≤ 128 }
{
    let line = screen_line(tables, panel, before, *field);
    let text = line.as_bytes();
    into[..text.len()].copy_from_slice(text);
    text.len() as u32
}

/// The choice that a field stands for, where it may be confirmed.
fn shown_choice(tables: &Tables, panel: u32, before: Option<Choice>, field: Field) -> Option<Choice>
    requires panel { panel < length tables.now.panels }
    requires field { IsField (line_of tables.now panel).digits field }
    ensures { result ≡ shown_choice (line_of tables.now panel) before field }
{
    if !confirmable(tables, panel, &field) {
        return None;
    }
    Some(choice_of(tables, panel, before, &field))
}

#[tactic(auto, using(urna_base::proofs::DecimalLaws::line_lengths))]
fn push_field(line: &mut LineBuffer, field: Field)
    requires field { IsField 5 field }
    requires room { length line.old ≤ 20 }
    ensures field { line.new ≡ line.old ++ field_text field }
    ensures short { length line.new ≤ length line.old + 6 }
{
    match field {
        Field::Empty => line.push_text(b"VAZIA"),
        Field::Blank => line.push_text(b"BRANCO"),
        Field::Digits { count, value } => line.push_digits(u64::from(value), u32::from(count)),
    }
}

fn push_choice(line: &mut LineBuffer, tables: &Tables, panel: u32, choice: Option<Choice>)
    requires { length line.old + (11 + longest_name) ≤ 128 }
    ensures choice { line.new ≡ line.old ++ choice_text tables.now panel choice }
    ensures short { length line.new ≤ length line.old + (11 + longest_name) }
{
    match choice {
        None => {}
        Some(Choice::Nominal(number)) => {
            line.push_text(b" CANDIDATO ");
            line.push_text(
                tables
                    .candidate_name(panel, number)
                    .unwrap_or("")
                    .as_bytes(),
            );
        }
        Some(Choice::Party(number)) => {
            line.push_text(b" LEGENDA ");
            line.push_text(tables.party_name(number).unwrap_or("").as_bytes());
        }
        Some(Choice::Blank) => {}
        Some(Choice::Null) => line.push_text(b" NULO"),
    }
}
