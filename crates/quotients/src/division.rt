//! The electoral quotient and the party quotient.
ghost use Rattle.std.specs.Prelude.{◌≡◌, ◌≤◌, ◌^◌};
ghost use Rattle.quotients.specs.Quotients.{electoral_quotient, party_quotient};

/// The electoral quotient (art. 106): the valid votes over the seats. A fraction of at most one half is dropped, a larger one counts
/// as one.
///
/// The caller owes that there is a seat, and that the valid votes are at most 10^12.
pub fn quotient(valid: u64, seats: u32) -> u64
    requires some { 1 ≤ seats }
    requires few { valid ≤ 10 ^ 12 }
    ensures { result ≡ electoral_quotient valid seats }
{
    let seats = u64::from(seats);
    let whole = valid / seats;
    let rest = valid % seats;
    if 2 * rest > seats { whole + 1 } else { whole }
}

/// The party quotient (art. 107): a party's valid votes over the electoral quotient, the fraction dropped.
///
/// The caller owes that the electoral quotient isn't 0.
pub fn party_quotient(votes: u64, qe: u64) -> u64
    requires { 1 ≤ qe }
    ensures { result ≡ party_quotient votes qe }
{
    votes / qe
}
