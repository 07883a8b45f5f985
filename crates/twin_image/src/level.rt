//! The same body in all four slots of two devices.
ghost use Rattle.std.specs.Prelude.{◌≡◌, ◌+◌, ◌*◌, length, vec_capacity, IfOk};
ghost use Rattle.std.specs.Option.{ForSome};
ghost use Rattle.urna_outside.specs.Faults.{FailsAt};
ghost use Rattle.urna_outside.specs.Told.{Runs, port_of};
ghost use Rattle.gate_slot.specs.Front.{RunsUpTo};
ghost use Rattle.gate_slot.specs.Page.{AreChanges};
ghost use Rattle.twin_image.specs.Held.{IsNotOutranked};

use crate::Ranked;
use crate::renewal::renew_on;
use gate_slot::{Changes, Live, PAGE_SIZE};
use urna_outside::{Dev, Machine};

/// All four slots are live with one body, whatever a power cut leaves: slots 0 and 1 of the internal flash, and those
/// of the external one. It has memory for just this body.
#[derive(Drop)]
pub struct Level<const SIZE: usize> {
    internal: (Live<SIZE>, Live<SIZE>),
    external: (Live<SIZE>, Live<SIZE>),
    body: Vec<u8>,
    ghost room: { vec_capacity body ≡ SIZE },
}

/// Brings a body to the next one, by the pages that change where a body is whole pages.
fn bring(changes: &Changes, body: &mut [u8], next: &[u8])
    requires same_length { length body.old ≡ length next.now }
    requires changes { AreChanges changes.now body.old next.now }
    ensures { body.new ≡ next.now }
{
    if next.len() % PAGE_SIZE == 0 {
        changes.bring(body, next);
    } else {
        body.copy_from_slice(next);
    }
}

impl<const SIZE: usize> Level<SIZE> {
    ghost use Rattle.twin_image.specs.Level.{body_of, Stands, CommitsTo};
    ghost use Rattle.twin_image.specs.Order.{AreRenewals};
    ghost use Rattle.twin_image.specs.Rewrite.{PutsAtMost, rewrite_bytes};

    /// A level of these tokens.
    pub(crate) fn of(
        internal: (Live<SIZE>, Live<SIZE>),
        external: (Live<SIZE>, Live<SIZE>),
        body: Vec<u8>,
    ) -> Level<SIZE>
        requires room { vec_capacity body ≡ SIZE }
        ensures internal { result.internal ≡ internal.entry }
        ensures external { result.external ≡ external.entry }
        ensures body { body_of result ≡ body.items }
    {
        Level {
            internal,
            external,
            body,
        }
    }

    /// The body of all four slots.
    pub fn body(&self) -> &[u8]
        ensures { result.now ≡ body_of self.now }
    {
        &self.body
    }

    /// Brings all four slots to a body whose rank is not less: internal 0, internal 1, external 0, external 1. Each is
    /// shut, the new body is brought over the old one, and it is published, so that at each stop both flashes, and each
    /// alone, hold the old body or the new one. Where SIZE is a multiple of PAGE_SIZE, only the pages that change are
    /// written.
    ///
    /// The caller owes that the slots of this machine are still live with the level's body, that the new body has
    /// SIZE bytes, and that its rank is not less than that of the present one. A device is answered only where its
    /// count rose; a new survey then says what stands.
    pub fn commit<M: Machine, R: Ranked>(
        self,
        m: &mut M,
        ranks: &R,
        next: &[u8],
    ) -> Result<Level<SIZE>, Dev>
        requires stands { Stands (M.told m.old) self }
        requires next { length next.now ≡ SIZE }
        requires rank { IsNotOutranked (R.rank ranks.now) next.now (body_of self) }

        ensures level { IfOk result (λ level. Stands (M.told m.new) level) }
        ensures body { IfOk result (λ level. body_of level ≡ next.now) }

        ensures ran { Runs (CommitsTo (M.told m.old) (R.rank ranks.now) SIZE (body_of self.entry) next.now)
            (M.told m.old) (M.told m.new) }
        // Ok or not, two gate bytes and the pages that change are put to each slot, at most.
        ensures bytes { Runs (PutsAtMost (4 * (rewrite_bytes SIZE (body_of self.entry) next.now + 2)))
            (M.told m.old) (M.told m.new) }
        // The slots have their turns in this order; up to a fault it is a front of them that was done.
        ensures order { ForSome (M.told m.old).flashes (λ start.
            RunsUpTo result (AreRenewals SIZE (body_of self.entry) next.now) (M.told m.old) (M.told m.new)) }
        ensures fails { FailsAt port_of result (M.told m.old) (M.told m.new) }
    {
        let Level {
            internal,
            external,
            mut body,
        } = self;
        let changes = Changes::of(&body, next);
        let internal = renew_on(m, Dev::Internal, internal, &body, next, &changes)?;
        let external = renew_on(m, Dev::External, external, &body, next, &changes)?;
        bring(&changes, &mut body, next);
        Ok(Level {
            internal,
            external,
            body,
        })
    }
}
