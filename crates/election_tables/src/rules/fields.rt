//! What single fields may hold: numbers in a range, dates, names, numbers with so many digits.
ghost use Rattle.std.specs.Prelude.{◌≡◌, ◌≤◌, ◌&&◌, nat_le, not, ◌==◌, pos};
ghost use Rattle.std.specs.List.{list_all};
ghost use Rattle.std.specs.Ordering.{int_eq};
ghost use Rattle.election_tables.specs.Fields.{natural, is_within, is_valid_date, is_name, has_digits, first_two};

use crate::document::Name;
use crate::limits::LONGEST_NAME;

/// The number, if it isn't negative.
pub(crate) fn natural(z: i64) -> Option<u64>
    ensures { result ≡ natural z }
{
    if z < 0 {
        return None;
    }
    Some(z as u64)
}

pub(crate) fn is_within(z: i64, low: u64, high: u64) -> bool
    ensures { result ≡ is_within low high z }
{
    match natural(z) {
        Some(n) => low <= n && n <= high,
        None => false,
    }
}

pub(crate) fn is_valid_date(z: i64) -> bool
    ensures { result ≡ is_valid_date z }
{
    match natural(z) {
        Some(n) => urna_base::date_ok(n),
        None => false,
    }
}

/// Whether a text is a name: 1 to `LONGEST_NAME` bytes, none a control byte.
pub(crate) fn is_name(name: &Name) -> bool
    ensures { result ≡ is_name name.now }
{
    let bytes = name.as_str().as_bytes();
    1 <= bytes.len() && bytes.len() <= LONGEST_NAME && is_printable(bytes)
}

fn is_printable(bytes: &[u8]) -> bool
    ensures { result ≡ list_all (λ b. nat_le 0x20 b && not (b == 0x7f)) bytes.now }
{
    bytes.iter().all(|b| 0x20 <= *b && *b != 0x7f)
}

/// Whether a number has exactly so many digits, the first not zero. The caller owes that they are at most 5.
pub fn has_digits(digits: u8, n: u64) -> bool
    requires { digits ≤ 5 }
    ensures { result ≡ has_digits digits n }
{
    let low = match digits {
        0 | 1 => 1,
        2 => 10,
        3 => 100,
        4 => 1000,
        _ => 10000,
    };
    let high = match digits {
        0 => 1,
        1 => 10,
        2 => 100,
        3 => 1000,
        4 => 10000,
        _ => 100000,
    };
    low <= n && n < high
}

/// The first two of so many digits: the party of a candidate's number. The caller owes that they are at most 5.
pub fn first_two(digits: u8, n: u64) -> u64
    requires { digits ≤ 5 }
    ensures { result ≡ first_two digits n }
{
    // a divisor that is known costs a tenth of one that isn't
    match digits {
        0 | 1 | 2 => n,
        3 => n / 10,
        4 => n / 100,
        _ => n / 1000,
    }
}

/// Whether two numbers are the same.
#[tactic(auto, using(crate::proofs::Signs::int_eq_natural))]
pub(crate) fn is_number(z: i64, n: u64) -> bool
    ensures { result ≡ int_eq z (pos n) }
{
    match natural(z) {
        Some(m) => m == n,
        None => false,
    }
}
