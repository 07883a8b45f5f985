//! The quotients of the seat law (Código Eleitoral arts. 106 to 109), in whole numbers.
//!
//! The layer above asks `quotient` and `party_quotient` for the two quotients, `least_tenth`, `least_fifth` and `four_fifths` for the
//! three minimums, and sorts values of `Average`; `tenth` and `fifth` tell of one number of votes whether it is one.
//! `specs/Quotients.antt` says what the quotients are, and `specs/Average.antt` which of two averages comes first; `laws` says that the
//! electoral quotient is the nearest whole number, and that averages stand in one order, which is that of the type.
#![tactic(auto)]

mod average;
mod division;
pub mod laws;
mod minimum;
mod order;

pub use average::Average;
pub use division::{party_quotient, quotient};
pub use minimum::{fifth, four_fifths, least_fifth, least_tenth, tenth};
