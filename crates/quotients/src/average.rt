//! An average: the valid votes of a party over a divisor.
ghost use Rattle.std.specs.Prelude.{◌≡◌, ◌*◌, ◌≤◌};

/// The average of a party (art. 109, I): its valid votes over a divisor, which is at least 1. Two averages are equal where all three parts
/// are. Their order is that in which they take seats.
#[derive(Clone, Copy, Debug, PartialEq, Eq)]
pub struct Average {
    votes: u64,
    divisor: u32,
    party: u8,
    pub ghost some: { 1 ≤ divisor },
}

impl Average {
    /// The average of a party with these votes over a divisor. The caller owes that the divisor is at least 1.
    pub fn new(votes: u64, divisor: u32, party: u8) -> Average
        requires { 1 ≤ divisor }
        ensures votes { result.votes ≡ votes }
        ensures divisor { result.divisor ≡ divisor }
        ensures party { result.party ≡ party }
    {
        Average {
            votes,
            divisor,
            party,
        }
    }

    /// Its votes.
    pub fn votes(&self) -> u64
        ensures { result ≡ self.now.votes }
    {
        self.votes
    }

    /// Its divisor, at least 1.
    pub fn divisor(&self) -> u32
        ensures value { result ≡ self.now.divisor }
        ensures some { 1 ≤ result }
    {
        self.divisor
    }

    /// The number of its party.
    pub fn party(&self) -> u8
        ensures { result ≡ self.now.party }
    {
        self.party
    }

    /// Its votes times the divisor of another average. Of two averages the one with the greater such product is the greater.
    pub(crate) fn product(&self, other: &Average) -> u128
        ensures { result ≡ self.now.votes * other.now.divisor }
    {
        u128::from(self.votes) * u128::from(other.divisor)
    }
}
