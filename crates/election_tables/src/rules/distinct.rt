//! Lists in which nothing stands twice: the keys are sorted, then neighbours are compared.
ghost use Rattle.std.specs.Prelude.{◌≡◌};
ghost use Rattle.std.specs.Ordering.{int_eq, eq_by_cmp};
ghost use Rattle.election_tables.specs.Rules.{are_distinct, same_pair};

use std::cmp::Ordering;

/// Whether no key stands twice.
pub(crate) fn keys_differ<K: Ord + Drop>(mut keys: Vec<K>) -> bool
    ensures { result ≡ are_distinct (eq_by_cmp K.cmp) keys.items }
{
    keys.sort_unstable();
    for i in 1..keys.len() {
        if keys[i - 1].cmp(&keys[i]) == Ordering::Equal {
            return false;
        }
    }
    true
}

pub(crate) fn numbers_differ(numbers: Vec<i64>) -> bool
    ensures { result ≡ are_distinct int_eq numbers.items }
{
    keys_differ(numbers)
}

#[tactic(auto, using(crate::proofs::Distinct::pairs_by_cmp))]
pub(crate) fn pairs_differ(pairs: Vec<(i64, i64)>) -> bool
    ensures { result ≡ are_distinct same_pair pairs.items }
{
    keys_differ(pairs)
}
