//! The parties, rising by number.
ghost use Rattle.std.specs.Prelude.{◌≡◌, ◌<◌, ◌==◌, true, Some, length, map, slice_get, IfOk, IsPermutation, option_copied, option_map};
ghost use Rattle.std.specs.List.{list_all, list_any};
ghost use Rattle.election_tables.specs.Rules.{are_distinct};
ghost use Rattle.election_tables.specs.Fitting.{party_fits};
ghost use Rattle.std.specs.Ordering.{int_eq};
ghost use Rattle.election_tables.specs.Tables.{entry_of_party};
ghost use Rattle.election_tables.specs.TablesData.{PartiesRise, party_name};

use super::to_u32;
use crate::document::{Name, PartyEntry};
use std::alloc::{AllocError, Global};
use std::marker::Model;

/// A party: its number and its name.
#[derive(Drop)]
pub struct Party {
    pub number: u8,
    pub name: Name,
}

/// The parties, rising by number, which contracts see as their list.
#[derive(Drop)]
pub struct Parties {
    items: Vec<Party>,
}

impl Model for Parties {
    ghost use Rattle.std.specs.Prelude.{List};
    ghost use Rattle.election_tables.specs.declared.tables.parties.Party.{Party};

    ghost Value = { List Party };

    ghost use Rattle.election_tables.specs.TablesData.{PartiesRise};

    ghost view = { λ p. p.items.items };

    ghost invariant = { λ p. PartiesRise p.items.items };
}

#[tactic(auto, using(crate::proofs::Signs::within_low, crate::proofs::Signs::within_high))]
fn to_party(alloc: Global, entry: &PartyEntry) -> Result<Party, AllocError>
    requires { party_fits entry.now ≡ true }
    ensures { IfOk result (λ q. entry_of_party q ≡ entry.now) }
{
    let name = Name::copied(alloc, entry.name.as_str())?;
    Ok(Party {
        number: to_u32(entry.number) as u8,
        name,
    })
}

fn to_parties(alloc: Global, entries: &[PartyEntry]) -> Result<Vec<Party>, AllocError>
    requires { list_all party_fits entries.now ≡ true }
    ensures { IfOk result (λ v. map entry_of_party v.items ≡ entries.now) }
{
    let mut parties = Vec::new(alloc);
    for entry in entries {
        parties.push(to_party(alloc, entry)?)?;
    }
    Ok(parties)
}

impl Parties {
    /// The document's parties, rising by number.
    pub(crate) fn of(alloc: Global, entries: &[PartyEntry]) -> Result<Parties, AllocError>
        requires in_range { list_all party_fits entries.now ≡ true }
        requires distinct { are_distinct int_eq (map (λ p. p.number) entries.now) ≡ true }
        ensures ok { IfOk result (λ v. IsPermutation entries.now (map entry_of_party v)) }
        ensures rise { IfOk result PartiesRise }
    {
        let mut items = to_parties(alloc, entries)?;
        items.sort_unstable_by_key(|p| p.number);
        Ok(Parties { items })
    }

    pub(crate) fn len(&self) -> usize
        ensures { result ≡ length self.now }
    {
        self.items.len()
    }

    /// The number of the party at a place, in rising order.
    pub(crate) fn at(&self, i: usize) -> u8
        requires { i < length self.now }
        ensures { option_map (λ q. q.number) (slice_get self.now i) ≡ Some result }
    {
        self.items[i].number
    }

    /// The name of the party of a number, by binary search.
    pub(crate) fn name_of(&self, number: u8) -> Option<&str>
        ensures { option_copied result ≡ party_name number self.now }
    {
        match self.items.binary_search_by_key(&number, |p| p.number) {
            Ok(i) => Some(self.items[i].name.as_str()),
            Err(_) => None,
        }
    }

    /// Whether there is a party of a number.
    pub(crate) fn has(&self, number: u8) -> bool
        ensures { result ≡ list_any (λ q. q.number == number) self.now }
    {
        self.name_of(number).is_some()
    }
}
