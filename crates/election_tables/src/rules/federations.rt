//! The rules on federations: 15 to 17.
ghost use Rattle.std.specs.Prelude.{◌≡◌, IfOk};
ghost use Rattle.std.specs.List.{list_all, list_any};
ghost use Rattle.std.specs.Ordering.{int_eq};
ghost use Rattle.election_tables.specs.Rules.{all_members, members_in_range, rule_15, rule_16, rule_17};

use super::distinct::numbers_differ;
use crate::document::{Document, FederationEntry, PartyEntry};
use crate::limits::{FEWEST_MEMBERS, MOST_MEMBERS};
use std::alloc::{AllocError, Global};

/// The numbers of all federations together.
pub(crate) fn all_members(
    alloc: Global,
    federations: &[FederationEntry],
) -> Result<Vec<i64>, AllocError>
    ensures { IfOk result (λ v. v.items ≡ all_members federations.now) }
{
    let mut members = Vec::new(alloc);
    for federation in federations {
        members.extend_from_slice(federation.parties.as_slice())?;
    }
    Ok(members)
}

fn members_in_range(federation: &FederationEntry) -> bool
    ensures { result ≡ members_in_range federation.now }
{
    let members = federation.parties.as_slice().len();
    FEWEST_MEMBERS <= members && members <= MOST_MEMBERS
}

fn all_members_in_range(federations: &[FederationEntry]) -> bool
    ensures { result ≡ list_all members_in_range federations.now }
{
    federations.iter().all(|f| members_in_range(f))
}

fn is_party(parties: &[PartyEntry], number: i64) -> bool
    ensures { result ≡ list_any (λ p. int_eq p.number number) parties.now }
{
    parties.iter().any(|p| p.number == number)
}

fn are_parties(parties: &[PartyEntry], numbers: &[i64]) -> bool
    ensures { result ≡ list_all (λ n. list_any (λ p. int_eq p.number n) parties.now) numbers.now }
{
    numbers.iter().all(|n| is_party(parties, *n))
}

impl Document {
    /// Whether each federation has as many parties as it may have.
    pub(crate) fn keeps_rule_15(&self) -> bool
        ensures { result ≡ rule_15 self.now }
    {
        all_members_in_range(&self.federations)
    }

    /// Whether each number of a federation is a party's.
    pub(crate) fn keeps_rule_16(&self, members: &[i64]) -> bool
        requires { members.now ≡ all_members self.now.federations }
        ensures { result ≡ rule_16 self.now }
    {
        are_parties(&self.parties, members)
    }

    /// Whether no number stands twice in all federations together.
    pub(crate) fn keeps_rule_17(&self, members: Vec<i64>) -> bool
        requires { members.items ≡ all_members self.now.federations }
        ensures { result ≡ rule_17 self.now }
    {
        numbers_differ(members)
    }
}
