//! The federations, in the document's order, and the blocs of the parties.
ghost use Rattle.std.specs.Prelude.{◌≡◌, ◌==◌, true, map, option_map, pos, IfOk};
ghost use Rattle.std.specs.List.{find, list_all, list_any};
ghost use Rattle.election_tables.specs.Fields.{is_within};
ghost use Rattle.election_tables.specs.Fitting.{federation_fits};
ghost use Rattle.election_tables.specs.Tables.{entry_of_federation};
ghost use Rattle.election_tables.specs.TablesData.{bloc_of, has_member, is_federation, lowest};

use super::to_u32;
use crate::document::{FederationEntry, Name};
use std::alloc::{AllocError, Global};
use std::marker::Model;

/// The numbers of a federation's parties, which contracts see as their list.
#[derive(Drop)]
pub struct PartyNumbers {
    items: Vec<u8>,
}

impl Model for PartyNumbers {
    ghost use Rattle.std.specs.Prelude.{List, ℕ};

    ghost Value = { List ℕ };

    ghost view = { λ p. p.items.items };
}

/// A federation: its name and its parties (Lei 9.096/1995, art. 11-A).
#[derive(Drop)]
pub struct Federation {
    pub name: Name,
    pub parties: PartyNumbers,
}

#[tactic(auto, using(crate::proofs::Signs::within_low, crate::proofs::Signs::within_high))]
fn to_number(z: i64) -> u8
    requires { is_within 10 99 z ≡ true }
    ensures { pos result ≡ z }
{
    to_u32(z) as u8
}

fn to_numbers(alloc: Global, numbers: &[i64]) -> Result<Vec<u8>, AllocError>
    requires { list_all (is_within 10 99) numbers.now ≡ true }
    ensures { IfOk result (λ v. map pos v.items ≡ numbers.now) }
{
    let mut items = Vec::new(alloc);
    for number in numbers {
        items.push(to_number(*number))?;
    }
    Ok(items)
}

fn to_federation(alloc: Global, entry: &FederationEntry) -> Result<Federation, AllocError>
    requires { federation_fits entry.now ≡ true }
    ensures { IfOk result (λ f. entry_of_federation f ≡ entry.now) }
{
    let name = Name::copied(alloc, entry.name.as_str())?;
    let items = to_numbers(alloc, entry.parties.as_slice())?;
    Ok(Federation {
        name,
        parties: PartyNumbers { items },
    })
}

/// The federations of a document, in its order.
pub(crate) fn federations_of(
    alloc: Global,
    entries: &[FederationEntry],
) -> Result<Vec<Federation>, AllocError>
    requires { list_all federation_fits entries.now ≡ true }
    ensures { IfOk result (λ v. map entry_of_federation v.items ≡ entries.now) }
{
    let mut federations = Vec::new(alloc);
    for entry in entries {
        federations.push(to_federation(alloc, entry)?)?;
    }
    Ok(federations)
}

impl PartyNumbers {
    fn contains(&self, party: u8) -> bool
        ensures { result ≡ list_any (λ n. n == party) self.now }
    {
        self.items.iter().any(|n| *n == party)
    }

    /// The lowest of the numbers; 0 of none.
    fn lowest(&self) -> u8
        ensures { result ≡ lowest self.now }
    {
        self.items.iter().copied().min().unwrap_or(0)
    }
}

/// The federation that a party is in, if it is in one.
fn federation_of(federations: &[Federation], party: u8) -> Option<&Federation>
    ensures { option_map (λ f. f.now) result ≡ find (has_member party) federations.now }
{
    federations.iter().find(|f| f.parties.contains(party))
}

/// The number of the bloc of a party: the lowest of its federation, or its own where it is in none.
pub(crate) fn bloc_of(federations: &[Federation], party: u8) -> u8
    ensures { result ≡ bloc_of federations.now party }
{
    match federation_of(federations, party) {
        Some(federation) => federation.parties.lowest(),
        None => party,
    }
}

/// Whether a number is that of a federation.
pub(crate) fn is_federation(federations: &[Federation], bloc: u8) -> bool
    ensures { result ≡ is_federation federations.now bloc }
{
    federations.iter().any(|f| f.parties.lowest() == bloc)
}
