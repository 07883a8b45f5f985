//! The four slots are read, and the body that they hold is kept.
ghost use Rattle.std.specs.Prelude.{◌≡◌, length, nat_lt, true, vec_capacity};
ghost use Rattle.std.specs.Option.{option_map_or};

use crate::Ranked;
use gate_slot::Slot;
use urna_outside::{Dev, Machine};

/// Why a survey found no body.
#[derive(Clone, Copy, Debug, PartialEq, Eq)]
pub enum SurveyError {
    /// The device failed, and its count of faults rose.
    Flash(Dev),
    /// None of the four slots stands.
    NoImage,
}

/// The best body so far and its rank, which is none as long as no slot stood; and room to read another body.
#[derive(Drop)]
pub(crate) struct Best<const SIZE: usize> {
    pub(crate) rank: Option<u32>,
    pub(crate) body: Vec<u8>,
    pub(crate) buffer: Vec<u8>,
    ghost whole: { length body.items ≡ SIZE },
    ghost buffered: { length buffer.items ≡ SIZE },
    ghost body_room: { vec_capacity body ≡ SIZE },
    ghost buffer_room: { vec_capacity buffer ≡ SIZE },
}

/// Whether a rank is greater than that of the best body.
fn is_better(rank: u32, best: Option<u32>) -> bool
    ensures { result ≡ option_map_or (λ other. nat_lt other rank) best true }
{
    match best {
        Some(other) => other < rank,
        None => true,
    }
}

impl<const SIZE: usize> Best<SIZE> {
    ghost use Rattle.std.specs.Prelude.{[], ◌++◌, ◌<◌, ◌≤◌, ℕ, List, None, IfOk, IfErr};
    ghost use Rattle.urna_outside.specs.Faults.{FailsAt};
    ghost use Rattle.urna_outside.specs.Told.{Does, port_of, size_of};
    ghost use Rattle.gate_slot.specs.Device.{OnFlash};
    ghost use Rattle.gate_slot.specs.Slot.{room};
    ghost use Rattle.twin_image.specs.Best.{IsBestOf, IsRanked};
    ghost use Rattle.twin_image.specs.Held.{all_bodies, bodies_at, bodies_on};
    ghost use Rattle.twin_image.specs.Slots.{HaveRoom};
    ghost use Rattle.std.specs.Option.{ForSome};

    /// Looks at one more slot, and keeps its body where that is better.
    fn look<M: Machine, R: Ranked>(
        self,
        m: &mut M,
        ranks: &R,
        slot: Slot<SIZE>,
    ) -> Result<Best<SIZE>, Dev>
        requires index { slot.index < 2 }
        requires room { room SIZE ≤ size_of slot.dev (M.told m.old).sizes }
        requires ranked { IsRanked (R.rank ranks.now) self }

        ensures ranked { IfOk result (IsRanked (R.rank ranks.now)) }
        ensures best { IfOk result (λ best. (bodies : List (List ℕ))
            → IsBestOf (R.rank ranks.now) bodies self.entry
            → OnFlash slot.entry.dev (λ flash. IsBestOf (R.rank ranks.now)
            (bodies ++ bodies_at (R.rank ranks.now) SIZE slot.entry.index flash.content) best) (M.told m.old)) }

        ensures dev { IfErr result (λ dev. dev ≡ slot.entry.dev) }
        ensures done { Does [] (M.told m.old) (M.told m.new) }
        ensures fails { FailsAt port_of result (M.told m.old) (M.told m.new) }
    {
        let Best {
            rank,
            body,
            mut buffer,
        } = self;
        let opened = slot.read(m, &mut buffer)?;
        if !opened {
            return Ok(Best { rank, body, buffer });
        }
        let Some(other) = ranks.rank(&buffer) else {
            return Ok(Best { rank, body, buffer });
        };
        if is_better(other, rank) {
            Ok(Best {
                rank: Some(other),
                body: buffer,
                buffer: body,
            })
        } else {
            Ok(Best { rank, body, buffer })
        }
    }

    /// Looks at both slots of a device.
    pub(crate) fn look_on<M: Machine, R: Ranked>(
        self,
        m: &mut M,
        ranks: &R,
        dev: Dev,
    ) -> Result<Best<SIZE>, Dev>
        requires room { room SIZE ≤ size_of dev (M.told m.old).sizes }
        requires ranked { IsRanked (R.rank ranks.now) self }

        ensures ranked { IfOk result (IsRanked (R.rank ranks.now)) }
        ensures best { IfOk result (λ best. (bodies : List (List ℕ))
            → IsBestOf (R.rank ranks.now) bodies self.entry
            → OnFlash dev (λ flash. IsBestOf (R.rank ranks.now)
            (bodies ++ bodies_on (R.rank ranks.now) SIZE flash.content) best) (M.told m.old)) }

        ensures dev { IfErr result (λ failed. failed ≡ dev) }
        ensures done { Does [] (M.told m.old) (M.told m.new) }
        ensures fails { FailsAt port_of result (M.told m.old) (M.told m.new) }
    {
        let best = self.look(m, ranks, Slot { dev, index: 0 })?;
        best.look(m, ranks, Slot { dev, index: 1 })
    }

    /// The best body of the four slots, from nothing seen so far.
    pub(crate) fn look_at_all<M: Machine, R: Ranked>(
        self,
        m: &mut M,
        ranks: &R,
    ) -> Result<Best<SIZE>, Dev>
        requires room { HaveRoom SIZE (M.told m.old).sizes }
        requires nothing { self.rank ≡ None }

        ensures ranked { IfOk result (IsRanked (R.rank ranks.now)) }
        ensures best { IfOk result (λ best. ForSome (M.told m.old).flashes
            (λ start. IsBestOf (R.rank ranks.now) (all_bodies (R.rank ranks.now) SIZE start) best)) }

        ensures done { Does [] (M.told m.old) (M.told m.new) }
        ensures fails { FailsAt port_of result (M.told m.old) (M.told m.new) }
    {
        let best = self.look_on(m, ranks, Dev::Internal)?;
        best.look_on(m, ranks, Dev::External)
    }
}
