//! The ledger of a counting centre: which sections have an accepted report, and the sums over the accepted reports, in a body of bytes as
//! a slot of a flash has it, and on two flashes.
//!
//! `Ledger::format` lays the ledger before the first report on both flashes, `Ledger::open` finds the one that they hold after any power
//! cut, and `Ledger::offer` takes the file of a report: `specs/Offers.antt` says the verdict on it and the ledger that it leaves. The layer
//! above reads the sums of a ledger by `Totals`, of which `specs/Totals.antt` says what they tell.
//!
//! `specs/Ledger.antt` says what a ledger is, and what a report more makes of it; `specs/Body.antt` which bytes stand for a ledger, and
//! their rank; `specs/LastHash.antt` what the hash of a report's last part is; `specs/Kept.antt` which ledger flashes hold, and when they
//! are at rest or in use; `specs/Calls.antt` what the calls do, also where the power goes. `laws` has that bytes stand for one ledger, that
//! no other bytes stand for it, that totals tell what their ledger has, and that flashes hold one ledger.
#![tactic(auto)]

mod body;
mod choices;
mod entry;
mod find;
mod frame;
mod header;
mod in_use;
mod last;
pub mod laws;
mod layout;
mod ledger;
mod ranks;
mod room;
mod sums;

pub use layout::{BODY_SIZE, DEVICE_SIZE};
pub use ledger::{Ledger, LedgerError, OfferError};
pub use sums::Totals;
