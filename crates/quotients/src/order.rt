//! The order of averages.
ghost use Rattle.std.proofs.Common.{rules};
ghost use Rattle.std.specs.Prelude.{◌≡◌};
ghost use Rattle.std.specs.Cmp.{partial_order_from_own_ties, partial_order_from_total};
ghost use Rattle.std.specs.Cmp.Rules.{comparing};
ghost use Rattle.std.specs.Ordering.{as_partial_cmp};
ghost use Rattle.quotients.specs.Order.{average_cmp, equal_cmp};
ghost use Rattle.quotients.specs.OrderLaws.{average_total};

use crate::average::Average;
use std::cmp::Ordering;

/// The greater quotient first (art. 109, I), then more votes, the lower party, the lower divisor. Quotients are compared by products, which
/// need up to 96 bits, so that nothing is rounded.
impl Ord for Average {
    ghost cmp = { average_cmp };

    ghost total = { average_total };

    ghost matches_partial_cmp = { Prim.search (comparing, rules) };

    ghost matches_eq = { Prim.search (comparing, rules) };

    fn cmp(&self, other: &Average) -> Ordering {
        match other.product(self).cmp(&self.product(other)) {
            Ordering::Equal => cmp_equal(self, other),
            unequal => unequal,
        }
    }
}

/// The order of two averages whose quotients are equal.
fn cmp_equal(a: &Average, b: &Average) -> Ordering
    ensures { result ≡ equal_cmp a.now b.now }
{
    let more_votes = b.votes().cmp(&a.votes());
    let lower_party = a.party().cmp(&b.party());
    let lower_divisor = a.divisor().cmp(&b.divisor());
    more_votes.then(lower_party).then(lower_divisor)
}

impl PartialOrd for Average {
    ghost partial_cmp = { as_partial_cmp average_cmp };

    ghost laws = { partial_order_from_own_ties (partial_order_from_total average_total) (Prim.search (comparing, rules)) };

    fn partial_cmp(&self, other: &Average) -> Option<Ordering> {
        Some(self.cmp(other))
    }
}
