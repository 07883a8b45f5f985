ghost use Rattle.std.specs.Prelude.{◌≡◌, ◌<◌, ◌≤◌, List, [], ◌∷◌, ◌++◌, length};
ghost use Rattle.key_script.specs.Event.{IsKey};
ghost use Rattle.key_script.specs.declared.keys.Key.{Key};
ghost use Rattle.vote_kinds.specs.declared.choice.Field.{Field};
ghost use Rattle.vote_kinds.specs.Ballot.{IsField, line_of};
ghost use Rattle.voter_term.specs.Field.{field_after, shown_by, IsUnconfirmed, Reads};
ghost use Rattle.voter_term.specs.Panel.{next_field, next_shown};

use election_tables::Tables;
use key_script::Key;
use std::marker::Model;
use vote_kinds::{Choice, Field, choice_of, confirmable, office_digits};

/// What a key does on the line of the ballot that stands.
#[derive(Clone, Copy, Debug, PartialEq, Eq)]
pub enum Shown {
    /// The key isn't taken.
    Nothing,
    /// The field changes, and is shown.
    Screen,
    /// The line of the ballot ends with this choice.
    Voted(Choice),
}

/// The panel of an office of CAP digits, which are 2, 3, 4 or 5 (docs/RULES.md, "The field"). Contracts see its field, which has at
/// most CAP digits.
#[derive(Drop)]
pub struct Panel<const CAP: u8> {
    field: Field,
}

impl<const CAP: u8> Model for Panel<CAP> {
    ghost Value = { Field };

    ghost view = { λ p. p.field };

    ghost invariant = { λ p. IsField CAP p.field };
}

impl<const CAP: u8> Panel<CAP> {
    /// The panel with an empty field.
    pub fn new() -> Panel<CAP>
        ensures { result ≡ Field.Empty }
    {
        Panel {
            field: Field::Empty,
        }
    }

    /// What stands typed in the panel.
    pub fn field(&self) -> Field
        ensures field { result ≡ self.now }
        ensures fits { IsField CAP result }
    {
        self.field
    }

    /// Takes one key, and tells what it does, where `before` is the same voter's choice of the line before, if there is one
    /// and it is of the same panel. After any word of keys that led to the field the panel stands for that word and the key;
    /// it ends exactly with a panel word.
    ///
    /// The caller owes that the panel is one of the tables, that its office has CAP digits, and that the key's digit is one.
    pub fn key(&mut self, tables: &Tables, panel: u32, before: Option<Choice>, key: Key) -> Shown
        requires panel { panel < length tables.now.panels }
        requires digits { (line_of tables.now panel).digits ≡ CAP }
        requires key { IsKey key }
        ensures field { (w : List Key) → self.old ≡ field_after CAP w → self.new ≡ field_after CAP (w ++ key ∷ []) }
        ensures shown { (w : List Key) → self.old ≡ field_after CAP w → result ≡ shown_by (line_of tables.now panel) before w key }
        // up to now no panel word stood at the front
        ensures word { (w : List Key) → self.old ≡ field_after CAP w → IsUnconfirmed (line_of tables.now panel) w
            → Reads (line_of tables.now panel) before (w ++ key ∷ []) result }
        // the same by the keypad's table
        ensures next { self.new ≡ next_field CAP self.old key }
        ensures tells { result ≡ next_shown (line_of tables.now panel) before self.old key }
    {
        self.take(tables, panel, before, key)
    }

    /// One key by the keypad's table.
    fn take(&mut self, tables: &Tables, panel: u32, before: Option<Choice>, key: Key) -> Shown
        requires panel { panel < length tables.now.panels }
        requires digits { (line_of tables.now panel).digits ≡ CAP }
        requires key { IsKey key }
        ensures next { self.new ≡ next_field CAP self.old key }
        ensures tells { result ≡ next_shown (line_of tables.now panel) before self.old key }
        ensures some { 2 ≤ CAP }
    {
        let digits = office_digits(tables, panel);
        if key == Key::Confirm {
            return confirm(tables, panel, before, self.field);
        }
        let next = next_field(digits, self.field, key);
        if next == self.field {
            return Shown::Nothing;
        }
        self.field = next;
        Shown::Screen
    }
}

fn confirm(tables: &Tables, panel: u32, before: Option<Choice>, field: Field) -> Shown
    requires panel { panel < length tables.now.panels }
    requires field { IsField (line_of tables.now panel).digits field }
    ensures { result ≡ next_shown (line_of tables.now panel) before field Key.Confirm }
{
    if !confirmable(tables, panel, &field) {
        return Shown::Nothing;
    }
    Shown::Voted(choice_of(tables, panel, before, &field))
}

/// The field after one more key, where so many digits may stand.
fn next_field(digits: u8, field: Field, key: Key) -> Field
    requires key { IsKey key }
    requires some { 1 ≤ digits }
    requires few { digits ≤ 5 }
    requires field { IsField digits field }
    ensures next { result ≡ next_field digits field key }
    ensures fits { IsField digits result }
{
    match (field, key) {
        (_, Key::Correct) => Field::Empty,
        (_, Key::Confirm) => field,
        (Field::Empty, Key::Blank) => Field::Blank,
        (_, Key::Blank) => field,
        (Field::Empty, Key::Digit(digit)) => Field::Digits {
            count: 1,
            value: u32::from(digit),
        },
        (Field::Digits { count, value }, Key::Digit(digit)) if count < digits => Field::Digits {
            count: count + 1,
            value: 10 * value + u32::from(digit),
        },
        (_, Key::Digit(_)) => field,
    }
}
