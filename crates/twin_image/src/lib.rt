//! The same body in both slots of a flash, and of two flashes.
//!
//! The layer above makes a `Twin`, finds by `survey` what both flashes hold, and brings all four slots to it by `heal`,
//! or loads blank devices by `lay`. Either gives a `Level`, whose `commit` takes the four slots to the next body, so that
//! at every stop both flashes, and each alone, hold the old body or the new one. `specs/Held.antt` says what slots hold,
//! `specs/Level.antt` what a level says (cite `Stands` and `body_of`), `specs/Order.antt` in which order a commit goes
//! through the slots (cite `AreRenewals`), `specs/Cut.antt` how far that came where a device failed,
//! `specs/Rewrite.antt` how a new body takes the place of the old one by the pages that change, and how many bytes that
//! puts, `specs/Heal.antt` what a heal keeps, `specs/Frame.antt` and `specs/Lay.antt` what a whole device is and what a
//! load leaves at each stop.
//! `proofs/Laid.antt` and `proofs/Framing.antt` have the lemmas that tie them.
#![tactic(auto)]

mod found;
mod law;
mod lay;
mod level;
mod mend;
mod ranked;
mod renewal;
mod survey;
mod twin;

pub use found::Found;
pub use law::{a_commit_puts_the_pages_that_change, held_is_the_first_of_greatest_rank};
pub use lay::lay_on;
pub use level::Level;
pub use mend::mend_twin;
pub use ranked::Ranked;
pub use renewal::{renew, renew_on};
pub use survey::SurveyError;
pub use twin::Twin;
