//! The four slots before anything is known of them.
ghost use Rattle.std.specs.Prelude.{◌≡◌, length, vec_capacity};

use crate::lay::lay_on;
use crate::survey::Best;
use crate::{Found, Level, Ranked, SurveyError};
use std::alloc::Global;
use urna_base::{Memory, zeros};
use urna_outside::{Dev, Machine};

/// The buffers of a survey and of all that follows it: two bodies, with memory for just them.
#[derive(Drop)]
pub struct Twin<const SIZE: usize> {
    body: Vec<u8>,
    buffer: Vec<u8>,
    ghost whole: { length body.items ≡ SIZE },
    ghost buffered: { length buffer.items ≡ SIZE },
    ghost body_room: { vec_capacity body ≡ SIZE },
    ghost buffer_room: { vec_capacity buffer ≡ SIZE },
}

impl<const SIZE: usize> Twin<SIZE> {
    ghost use Rattle.std.specs.Prelude.{[], ◌≤◌, Some, IfOk, IsSome, IsErrOf, OnOk, OnErr};
    ghost use Rattle.std.specs.Option.{ForSome};
    ghost use Rattle.urna_outside.specs.Faults.{FailsAt};
    ghost use Rattle.urna_outside.specs.Flash.{IsClean};
    ghost use Rattle.urna_outside.specs.Told.{Does, Runs, port_of, size_of};
    ghost use Rattle.gate_slot.specs.Device.{OnFlash};
    ghost use Rattle.gate_slot.specs.Front.{IsFrontOf};
    ghost use Rattle.gate_slot.specs.Slot.{header_size, room};
    ghost use Rattle.twin_image.specs.Found.{found_body};
    ghost use Rattle.twin_image.specs.Held.{HoldsBody, NoneStands, bodies_on, held_alone};
    ghost use Rattle.twin_image.specs.Lay.{AreFull, AreLaid, Lays, load_ops};
    ghost use Rattle.twin_image.specs.Level.{body_of, Stands};
    ghost use Rattle.twin_image.specs.Slots.{HaveRoom, AreClean};
    ghost use Rattle.twin_image.specs.Survey.{SurveyEnds};

    /// Makes the buffers: two bodies of SIZE bytes. What is made of them later keeps them as they are, with memory for no more.
    /// `Memory` comes only where an allocation failed.
    pub fn new(alloc: Global) -> Result<Twin<SIZE>, Memory> {
        Ok(Twin {
            body: zeros(alloc, SIZE)?,
            buffer: zeros(alloc, SIZE)?,
        })
    }

    /// Finds the body that both flashes hold together: of the slots that stand, the first of greatest rank in the
    /// order internal 0, internal 1, external 0, external 1. It reads only.
    ///
    /// The caller owes that nothing is dirty, so that what is found stands in every image. `NoImage` comes exactly
    /// where none of the four slots stands, `Flash` only where that device's count rose.
    pub fn survey<M: Machine, R: Ranked>(
        self,
        m: &mut M,
        ranks: &R,
    ) -> Result<Found<SIZE>, SurveyError>
        requires room { HaveRoom SIZE (M.told m.old).sizes }
        requires clean { ForSome (M.told m.old).flashes AreClean }

        ensures held { IfOk result (λ found. ForSome (M.told m.old).flashes
            (HoldsBody (R.rank ranks.now) SIZE (found_body found))) }
        ensures ranked { IfOk result (λ found. IsSome (R.rank ranks.now (found_body found))) }
        ensures whole { IfOk result (λ found. length (found_body found) ≡ SIZE) }
        ensures none { IsErrOf result SurveyError.NoImage
            → ForSome (M.told m.old).flashes (NoneStands (R.rank ranks.now) SIZE) }

        ensures done { Does [] (M.told m.old) (M.told m.new) }
        ensures fails { SurveyEnds result (M.told m.old) (M.told m.new) }
    {
        let Twin { body, buffer } = self;
        let nothing: Best<SIZE> = Best {
            rank: None,
            body,
            buffer,
        };
        match nothing.look_at_all(m, ranks) {
            Ok(best) => match best.rank {
                Some(_) => Ok(Found::of(best.body, best.buffer)),
                None => Err(SurveyError::NoImage),
            },
            Err(dev) => Err(SurveyError::Flash(dev)),
        }
    }

    /// Finds the body that one device alone holds: of its two slots that stand, the first of greatest rank. It reads
    /// only.
    ///
    /// The caller owes that the device has no dirty byte, so that what is found stands in every image. `NoImage` comes
    /// exactly where neither slot stands, `Flash` only where that device's count rose.
    pub fn survey_on<M: Machine, R: Ranked>(
        self,
        m: &mut M,
        ranks: &R,
        dev: Dev,
    ) -> Result<Found<SIZE>, SurveyError>
        requires room { room SIZE ≤ size_of dev (M.told m.old).sizes }
        requires clean { OnFlash dev IsClean (M.told m.old) }

        ensures held { IfOk result (λ found. OnFlash dev
            (λ flash. held_alone (R.rank ranks.now) SIZE flash.content ≡ Some (found_body found)) (M.told m.old)) }
        ensures ranked { IfOk result (λ found. IsSome (R.rank ranks.now (found_body found))) }
        ensures whole { IfOk result (λ found. length (found_body found) ≡ SIZE) }
        ensures none { IsErrOf result SurveyError.NoImage
            → OnFlash dev (λ flash. bodies_on (R.rank ranks.now) SIZE flash.content ≡ []) (M.told m.old) }

        ensures done { Does [] (M.told m.old) (M.told m.new) }
        ensures fails { SurveyEnds result (M.told m.old) (M.told m.new) }
    {
        let Twin { body, buffer } = self;
        let nothing: Best<SIZE> = Best {
            rank: None,
            body,
            buffer,
        };
        match nothing.look_on(m, ranks, dev) {
            Ok(best) => match best.rank {
                Some(_) => Ok(Found::of(best.body, best.buffer)),
                None => Err(SurveyError::NoImage),
            },
            Err(dev) => Err(SurveyError::Flash(dev)),
        }
    }

    /// Loads both devices, internal first, each with its header of HEADER_SIZE bytes: both slots are shut, both are filled
    /// with the body, the header and the zeros behind the gates are written and synced, and both slots are published.
    ///
    /// The caller owes that nothing is dirty, that each device is just a header and two slots, and that the body has
    /// SIZE bytes. At each stop a device has its old header and no slot open that wasn't with the same body, or each
    /// slot that is open has the new body under the whole new frame. A device is answered only where its count rose.
    pub fn lay<M: Machine>(
        self,
        m: &mut M,
        internal: &[u8],
        external: &[u8],
        body: &[u8],
    ) -> Result<Level<SIZE>, Dev>
        requires full { AreFull SIZE (M.told m.old).sizes }
        requires clean { ForSome (M.told m.old).flashes AreClean }
        requires internal { length internal.now ≡ header_size }
        requires external { length external.now ≡ header_size }
        requires body { length body.now ≡ SIZE }

        ensures level { IfOk result (λ level. Stands (M.told m.new) level) }
        ensures body { IfOk result (λ level. body_of level ≡ body.now) }
        ensures laid { OnOk result (ForSome (M.told m.new).flashes
            (AreLaid SIZE internal.now external.now body.now)) }

        ensures exact { OnOk result (ForSome (M.told m.old).flashes
            (λ start. Does (load_ops SIZE internal.now external.now body.now start) (M.told m.old) (M.told m.new))) }
        // Up to a fault it is a front of the same that was done.
        ensures cut { OnErr result (ForSome (M.told m.old).flashes
            (λ start. Runs (IsFrontOf (load_ops SIZE internal.now external.now body.now start)) (M.told m.old) (M.told m.new))) }
        ensures ran { Runs (Lays (M.told m.old) SIZE internal.now external.now body.now)
            (M.told m.old) (M.told m.new) }
        ensures fails { FailsAt port_of result (M.told m.old) (M.told m.new) }
    {
        let mut kept = self.body;
        let internal = lay_on(m, Dev::Internal, internal, body)?;
        let external = lay_on(m, Dev::External, external, body)?;
        kept.copy_from_slice(body);
        Ok(Level::of(internal, external, kept))
    }
}
