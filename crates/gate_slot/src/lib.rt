//! One slot of a flash. A slot is a gate byte and a body, and stands for something only where its gate is open. The
//! body is never written under an open gate, so no power cut leaves half a body behind one.
//!
//! The layer above takes a slot through its states `Shut`, `Filled` and `Live` by `shut`, `fill` and `publish`, and
//! takes over a slot that is live already by `adopt`. Where the old body is known, `patch` stands in the place of
//! `fill` and writes only the pages that change, and `patch_found` where `Changes` has them already.
//! `specs/Slot.antt` says where gate and body stand and what a state means in every image, `specs/Page.antt` what a
//! page is and which ones are written, `specs/Front.antt` how far a step came that failed; `facts_survive` says what
//! such a fact survives. docs/CRASH.md has the flash model.
#![tactic(auto)]

mod changes;
mod law;
mod slot;
mod write;

pub use changes::{Changes, PAGE_SIZE};
pub use law::facts_survive;
pub use slot::{
    FRONT_SIZE, Filled, HEADER_SIZE, Live, OPEN, PADDING_SIZE, Shut, Slot, Step, Torn, adopt,
};
