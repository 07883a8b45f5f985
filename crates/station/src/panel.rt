//! The panel that stands on the voter's terminal, whatever its office's number of digits.
ghost use Rattle.std.specs.Prelude.{◌≡◌, ◌<◌, ◌≤◌, length};
ghost use Rattle.key_script.specs.Event.{IsKey};
ghost use Rattle.vote_kinds.specs.declared.choice.Field.{Field};
ghost use Rattle.vote_kinds.specs.Ballot.{line_of};
ghost use Rattle.voter_term.specs.Panel.{next_field, next_shown};
ghost use Rattle.station.specs.Terminal.{digits_in, field_in};

use election_tables::Tables;
use key_script::Key;
use vote_kinds::{Choice, Field};
use voter_term::{Panel, Shown};

/// A panel of each number of digits that an office has. Contracts see its digits and its field (`specs/Terminal.antt`).
#[derive(Drop)]
pub(crate) enum OpenPanel {
    Two(Panel<2>),
    Three(Panel<3>),
    Four(Panel<4>),
    Five(Panel<5>),
}

impl OpenPanel {
    /// The empty panel of an office of so many digits.
    pub(crate) fn of(digits: u8) -> OpenPanel
        requires some { 2 ≤ digits }
        requires few { digits ≤ 5 }
        ensures digits { digits_in result ≡ digits }
        ensures empty { field_in result ≡ Field.Empty }
    {
        match digits {
            2 => OpenPanel::Two(Panel::new()),
            3 => OpenPanel::Three(Panel::new()),
            4 => OpenPanel::Four(Panel::new()),
            _ => OpenPanel::Five(Panel::new()),
        }
    }

    /// What stands typed in it.
    pub(crate) fn field(&self) -> Field
        ensures { result ≡ field_in self.now }
    {
        match self {
            OpenPanel::Two(panel) => panel.field(),
            OpenPanel::Three(panel) => panel.field(),
            OpenPanel::Four(panel) => panel.field(),
            OpenPanel::Five(panel) => panel.field(),
        }
    }

    /// One key, and what it does, where `before` is the same voter's choice of the line before, if there is one and it is of
    /// the same panel. The caller owes that the panel of this number is one of the tables, that its office has the digits of
    /// this one, and that the key's digit is one.
    pub(crate) fn key(
        &mut self,
        tables: &Tables,
        number: u32,
        before: Option<Choice>,
        key: Key,
    ) -> Shown
        requires panel { number < length tables.now.panels }
        requires digits { (line_of tables.now number).digits ≡ digits_in self.old }
        requires key { IsKey key }
        ensures digits { digits_in self.new ≡ digits_in self.old }
        ensures next { field_in self.new ≡ next_field (digits_in self.old) (field_in self.old) key }
        ensures tells { result ≡ next_shown (line_of tables.now number) before (field_in self.old) key }
    {
        match self {
            OpenPanel::Two(panel) => panel.key(tables, number, before, key),
            OpenPanel::Three(panel) => panel.key(tables, number, before, key),
            OpenPanel::Four(panel) => panel.key(tables, number, before, key),
            OpenPanel::Five(panel) => panel.key(tables, number, before, key),
        }
    }
}
