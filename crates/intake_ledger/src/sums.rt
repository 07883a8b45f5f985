//! What a ledger tells: how many sections are accepted, and the sum of each choice.
ghost use Rattle.std.specs.Prelude.{◌≡◌, ◌+◌, ◌<◌, length, false, IfOk, vec_capacity};
ghost use Rattle.std.specs.List.{position};
ghost use Rattle.election_tables.specs.TablesData.{IsTables};
ghost use Rattle.poll_report.specs.Report.{IsReport};
ghost use Rattle.intake_ledger.specs.Body.{is_marked, number_in};
ghost use Rattle.intake_ledger.specs.Layout.{body_size};
ghost use Rattle.intake_ledger.specs.Ledger.{LedgerData, is_choice_of, panel_choices, with_report};
ghost use Rattle.intake_ledger.specs.Totals.{AreTotals, accepted_told, sum_told};

use crate::body::{number_in, sum_in};
use crate::choices::all_choices;
use crate::entry::enter;
use crate::layout::HASH_SIZE;
use election_tables::Tables;
use poll_report::Report;
use std::alloc::Global;
use std::marker::Model;
use urna_base::Memory;
use vote_kinds::Choice;

/// The sums over the accepted reports of a ledger, in the body in which they stand. Contracts see the choices of all panels in order, each
/// with its panel, and the bytes of the body.
#[derive(Drop)]
pub struct Totals {
    choices: Vec<(u32, Choice)>,
    // with memory for just a body
    body: Vec<u8>,
}

impl Model for Totals {
    ghost use Rattle.std.specs.Prelude.{vec_capacity};
    ghost use Rattle.intake_ledger.specs.Totals.{AreStored, TotalsData};

    ghost Value = { TotalsData };

    ghost view = { λ s. record { choices = s.choices.items; body = s.body.items } };

    ghost invariant = { λ s. AreStored s.choices.items s.body.items (vec_capacity s.body) };
}

impl Totals {
    /// The totals of the ledger of these tables that stands in a body, which has memory for just its bytes. The memory for the choices is
    /// taken here, and none later. `Memory` comes only where an allocation failed.
    pub(crate) fn new(alloc: Global, tables: &Tables, body: Vec<u8>) -> Result<Totals, Memory>
        requires whole { length body.items ≡ body_size }
        requires reserved { vec_capacity body ≡ body_size }
        ensures choices { IfOk result (λ totals. totals.choices ≡ panel_choices tables.now) }
        ensures body { IfOk result (λ totals. totals.body ≡ body.items) }
        ensures tables { IsTables tables.now }
    {
        Ok(Totals {
            choices: all_choices(alloc, tables)?,
            body,
        })
    }

    /// How many sections have an accepted report.
    pub fn accepted(&self) -> u32
        ensures { result ≡ accepted_told self.now }
    {
        number_in(&self.body)
    }

    /// The votes of a candidate of a panel over all accepted reports; 0 for a number that the tables lack.
    pub fn nominal(&self, panel: u32, number: u32) -> u64
        ensures { result ≡ sum_told self.now panel (Choice.Nominal number) }
    {
        self.sum(panel, Choice::Nominal(number))
    }

    /// The party votes alone of a party in a panel, over all accepted reports; 0 for a number that the tables lack, and where the office
    /// is not decided in proportion.
    pub fn party(&self, panel: u32, number: u8) -> u64
        ensures { result ≡ sum_told self.now panel (Choice.Party number) }
    {
        self.sum(panel, Choice::Party(number))
    }

    /// The blank votes of a panel over all accepted reports; 0 for a panel that the tables lack.
    pub fn blank(&self, panel: u32) -> u64
        ensures { result ≡ sum_told self.now panel Choice.Blank }
    {
        self.sum(panel, Choice::Blank)
    }

    /// The null votes of a panel over all accepted reports; 0 for a panel that the tables lack.
    pub fn null_votes(&self, panel: u32) -> u64
        ensures { result ≡ sum_told self.now panel Choice.Null }
    {
        self.sum(panel, Choice::Null)
    }

    /// The sum of a panel's choice, 0 where it isn't one of the choices.
    fn sum(&self, panel: u32, choice: Choice) -> u64
        ensures { result ≡ sum_told self.now panel choice }
    {
        match place_of(&self.choices, panel, choice) {
            Some(place) => sum_in(&self.body, place as u32),
            None => 0,
        }
    }

    /// The body in which the sums stand.
    pub(crate) fn body(&self) -> &[u8]
        ensures { result.now ≡ self.now.body }
    {
        &self.body
    }

    /// Puts another body in the place of this one, so that the totals are those of the ledger that stands there.
    pub(crate) fn set_body(&mut self, body: &[u8])
        requires { length body.now ≡ body_size }
        ensures { self.new ≡ record { choices = self.old.choices; body = body.now } }
    {
        self.body.copy_from_slice(body);
    }

    /// Enters a report of the section in a place, which has none, with the hash of the report's last part. The caller owes that these are
    /// totals of the tables, and that the report's numbers lie in their ranges.
    pub(crate) fn enter(
        &mut self,
        tables: &Tables,
        place: u32,
        hash: &[u8; HASH_SIZE],
        report: &Report,
    )
        requires totals { (l : LedgerData) × AreTotals tables.now l self.old }
        requires place { place < length tables.now.sections }
        requires free { is_marked self.old.body place ≡ false }
        requires report { IsReport report.now }
        ensures entered { (l : LedgerData) → AreTotals tables.now l self.old
            → AreTotals tables.now (with_report tables.now place hash.now report.now l) self.new }
        ensures number { number_in self.new.body ≡ number_in self.old.body + 1 }
        ensures tables { IsTables tables.now }
    {
        enter(&mut self.body, tables, &self.choices, place, hash, report);
    }
}

/// Where a panel's choice stands among some choices.
fn place_of(choices: &[(u32, Choice)], panel: u32, choice: Choice) -> Option<usize>
    ensures { result ≡ position (is_choice_of panel choice) choices.now }
{
    choices
        .iter()
        .position(|(other, it)| *other == panel && it.is_same(choice))
}
