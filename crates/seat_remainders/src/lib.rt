//! The seats of a proportional office by electoral quotient and greatest averages (Código Eleitoral arts. 106 to 110), and the winner of
//! a majority office.
//!
//! The layer above makes a `Contest` of an office's votes and asks `distribute` what comes of it, which `specs/Outcome.antt` says with
//! `specs/Parties.antt` (the first phase), `specs/Rounds.antt` (the seats that remain) and `specs/Candidates.antt` (the order of
//! candidates); it asks `averages` for the sorted table that decides the seats of phase 2, which `specs/Table.antt` says, and `majority`
//! by `specs/Majority.antt`. Whoever looks at given seats counts a party by `standing_of`, with `valid_votes` and `most_seats`, sums
//! the votes of candidates by `nominal_votes` and orders candidates by `sort_candidates`; none of these takes memory. `laws` says that
//! each contest has one outcome and one table, that the fronts of two such tables are the rounds and the awards of given seats the averages that stand with them, that the seats add up and are
//! filled, by how many seats a party is eligible, and when nobody is elected or two go to a second round.
#![tactic(auto)]

mod awards;
mod contest;
mod distribution;
mod elected;
pub mod laws;
mod majority_rule;
mod outcome;
mod standing;
mod table;
mod votes;

pub use contest::{Contest, Contestant, Contestants, Entries, Entry};
pub use distribution::distribute;
pub use elected::sort_candidates;
pub use majority_rule::majority;
pub use outcome::{
    Averages, Award, Awards, MajorityOutcome, Numbers, Outcome, PartySeatList, PartySeats, Seats,
};
pub use standing::{Standing, most_seats, standing_of};
pub use table::averages;
pub use votes::{nominal_votes, valid_votes};
