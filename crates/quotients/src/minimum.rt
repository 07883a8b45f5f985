//! The minimums of votes, as shares of the electoral quotient `qe`. Who asks whether a number of votes is one owes that both numbers are at
//! most 10^12.
ghost use Rattle.std.specs.Prelude.{◌≡◌, ℕ, ◌≤◌, ◌^◌, nat_le};
ghost use Rattle.quotients.specs.Quotients.{has_tenth, has_fifth, has_four_fifths};

/// The fewest votes that are at least 10% of the quotient (art. 108). Who compares many candidates with it makes no product for each.
pub fn least_tenth(qe: u64) -> u64
    ensures { (n : ℕ) → nat_le result n ≡ has_tenth n qe }
{
    qe.div_ceil(10)
}

/// The fewest votes that are at least 20% of the quotient (art. 109, paragraph 2).
pub fn least_fifth(qe: u64) -> u64
    ensures { (n : ℕ) → nat_le result n ≡ has_fifth n qe }
{
    qe.div_ceil(5)
}

/// Whether a candidate with `n` votes has at least 10% of the quotient (art. 108). Both are at most 10^12.
pub fn tenth(n: u64, qe: u64) -> bool
    requires votes { n ≤ 10 ^ 12 }
    requires quotient { qe ≤ 10 ^ 12 }
    ensures { result ≡ has_tenth n qe }
{
    n >= least_tenth(qe)
}

/// Whether a candidate with `n` votes has at least 20% of the quotient (art. 109, paragraph 2). Both are at most 10^12.
pub fn fifth(n: u64, qe: u64) -> bool
    requires votes { n ≤ 10 ^ 12 }
    requires quotient { qe ≤ 10 ^ 12 }
    ensures { result ≡ has_fifth n qe }
{
    n >= least_fifth(qe)
}

/// Whether a party with `v` votes has at least 80% of the quotient (art. 109, paragraph 2). Both are at most 10^12.
pub fn four_fifths(v: u64, qe: u64) -> bool
    requires votes { v ≤ 10 ^ 12 }
    requires quotient { qe ≤ 10 ^ 12 }
    ensures { result ≡ has_four_fifths v qe }
{
    5 * v >= 4 * qe
}
