ghost use Rattle.std.specs.Prelude.{◌≡◌, ◌^◌, ◌<◌, ◌≤◌, length, map, true, nat_eq};
ghost use Rattle.std.specs.List.{list_any};
ghost use Rattle.election_tables.specs.Fields.{first_two};
ghost use Rattle.vote_kinds.specs.Ballot.{IsField, choice_of, is_choice, is_confirmable, is_nominal_of, is_proportional, line_of, panel_at};

use crate::choice::{Choice, Field};
use election_tables::{Kind, Office, Tables, first_two};

/// Whether CONFIRMA is taken at a field of a panel: at a blank field, in a proportional office from two digits on, and in a
/// majority office at all of them (docs/RULES.md, "The field").
///
/// The caller owes that the panel is one of the tables.
pub fn confirmable(tables: &Tables, panel: u32, field: &Field) -> bool
    requires { panel < length tables.now.panels }
    ensures { result ≡ is_confirmable (line_of tables.now panel) field.now }
{
    match *field {
        Field::Empty => false,
        Field::Blank => true,
        Field::Digits { count, .. } => {
            let office = office_of(tables, panel);
            if is_proportional(office.kind) {
                count >= 2
            } else {
                count == office.digits
            }
        }
    }
}

/// The choice that a field of a panel stands for (Lei 9.504/1997 art. 59 paragraph 2; docs/RULES.md, "The choice"), which is one
/// that a voter may make there. `before` is the same voter's choice of the line before, if there is one and it is of the same panel: its
/// candidate isn't chosen again, and the choice is then null.
///
/// The caller owes that the panel is one of the tables, that the field has no more digits than its office, and that CONFIRMA is
/// taken at it.
#[tactic(auto, using(crate::proofs::Choices::chosen_is))]
pub fn choice_of(tables: &Tables, panel: u32, before: Option<Choice>, field: &Field) -> Choice
    requires panel { panel < length tables.now.panels }
    requires field { IsField (line_of tables.now panel).digits field.now }
    requires confirmable { is_confirmable (line_of tables.now panel) field.now ≡ true }
    ensures choice { result ≡ choice_of (line_of tables.now panel) before field.now }
    ensures allowed { is_choice (line_of tables.now panel) result ≡ true }
{
    match *field {
        Field::Empty => Choice::Null,
        Field::Blank => Choice::Blank,
        Field::Digits { count, value } => {
            let office = office_of(tables, panel);
            choice_of_digits(tables, panel, before, office, count, value)
        }
    }
}

/// Whether a voter may choose so in a panel: blank and null always, a candidate of the office, and in a proportional office a
/// party of the tables.
///
/// The caller owes that the panel is one of the tables.
pub fn is_choice(tables: &Tables, panel: u32, choice: Choice) -> bool
    requires { panel < length tables.now.panels }
    ensures { result ≡ is_choice (line_of tables.now panel) choice }
{
    match choice {
        Choice::Nominal(number) => has_candidate(tables, panel, number),
        Choice::Party(number) => {
            let office = office_of(tables, panel);
            is_proportional(office.kind) && has_party(tables, number)
        }
        Choice::Blank => true,
        Choice::Null => true,
    }
}

/// How many digits the office of a panel has: 2, 3, 4 or 5.
///
/// The caller owes that the panel is one of the tables.
pub fn office_digits(tables: &Tables, panel: u32) -> u8
    requires { panel < length tables.now.panels }
    ensures digits { result ≡ (line_of tables.now panel).digits }
    ensures range { (2 ≤ result) × (result ≤ 5) }
{
    office_of(tables, panel).digits
}

fn choice_of_digits(
    tables: &Tables,
    panel: u32,
    before: Option<Choice>,
    office: Office,
    count: u8,
    value: u32,
) -> Choice
    requires panel { panel < length tables.now.panels }
    requires office { office ≡ (panel_at tables.now panel).office }
    requires some { 2 ≤ count }
    requires few { count ≤ 5 }
    requires value { value < 10 ^ count }
    ensures { result ≡ choice_of (line_of tables.now panel) before (Field.Digits count value) }
{
    if count == office.digits && has_candidate(tables, panel, value) {
        if is_nominal_of(value, before) {
            return Choice::Null;
        }
        return Choice::Nominal(value);
    }
    let party = leading_pair(count, value);
    if is_proportional(office.kind) && has_party(tables, party) {
        return Choice::Party(party);
    }
    Choice::Null
}

#[tactic(auto, using(crate::proofs::Lookups::office_known))]
fn office_of(tables: &Tables, panel: u32) -> Office
    requires { panel < length tables.now.panels }
    ensures office { result ≡ (panel_at tables.now panel).office }
    ensures digits { (2 ≤ result.digits) × (result.digits ≤ 5) }
{
    tables.office(panel)
}

pub(crate) fn is_proportional(kind: Kind) -> bool
    ensures { result ≡ is_proportional kind }
{
    match kind {
        Kind::Proportional => true,
        Kind::Absolute => false,
        Kind::Simple => false,
    }
}

/// Whether a choice, if there is one, is that of the candidate with this number.
fn is_nominal_of(number: u32, choice: Option<Choice>) -> bool
    ensures { result ≡ is_nominal_of number choice }
{
    match choice {
        Some(Choice::Nominal(other)) => number == other,
        Some(Choice::Party(_) | Choice::Blank | Choice::Null) | None => false,
    }
}

fn has_candidate(tables: &Tables, panel: u32, number: u32) -> bool
    ensures { result ≡ list_any (nat_eq number) (line_of tables.now panel).candidates }
{
    tables.candidate_name(panel, number).is_some()
}

fn has_party(tables: &Tables, number: u8) -> bool
    ensures { result ≡ list_any (nat_eq number) (map (λ q. q.number) tables.now.parties) }
{
    tables.party_name(number).is_some()
}

/// The first two of so many digits, as the number of a party.
#[tactic(auto, using(crate::proofs::Pairs::pair_small))]
fn leading_pair(count: u8, value: u32) -> u8
    requires some { 2 ≤ count }
    requires few { count ≤ 5 }
    requires value { value < 10 ^ count }
    ensures { result ≡ first_two count value }
{
    first_two(count, u64::from(value)) as u8
}
