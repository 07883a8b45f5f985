//! The body that both flashes hold, and the slots brought to it.
ghost use Rattle.std.specs.Prelude.{◌≡◌, length, vec_capacity};

use crate::Level;
use crate::mend::mend_twin;
use urna_outside::{Dev, Machine};

/// The body that both flashes hold together, as a survey found it.
#[derive(Drop)]
pub struct Found<const SIZE: usize> {
    body: Vec<u8>,
    buffer: Vec<u8>,
    ghost whole: { length body.items ≡ SIZE },
    ghost buffered: { length buffer.items ≡ SIZE },
    ghost body_room: { vec_capacity body ≡ SIZE },
    ghost buffer_room: { vec_capacity buffer ≡ SIZE },
}

impl<const SIZE: usize> Found<SIZE> {
    ghost use Rattle.std.specs.Prelude.{[], IfOk, OnErr, OnOk};
    ghost use Rattle.std.specs.Option.{ForSome};
    ghost use Rattle.urna_outside.specs.Faults.{FailsAt};
    ghost use Rattle.urna_outside.specs.Flash.{flash_of};
    ghost use Rattle.urna_outside.specs.Told.{Does, Runs, port_of};
    ghost use Rattle.urna_outside.specs.declared.device.Dev.{Dev};
    ghost use Rattle.gate_slot.specs.Front.{IsUpTo};
    ghost use Rattle.twin_image.specs.Found.{found_body};
    ghost use Rattle.twin_image.specs.Heal.{Heals, IsHeal};
    ghost use Rattle.twin_image.specs.Level.{body_of, Stands};
    ghost use Rattle.twin_image.specs.Slots.{HaveRoom, AreClean};
    ghost use Rattle.twin_image.specs.Twin.{IsTwin};

    /// What a survey found, and room to read another body.
    pub(crate) fn of(body: Vec<u8>, buffer: Vec<u8>) -> Found<SIZE>
        requires body { length body.items ≡ SIZE }
        requires buffer { length buffer.items ≡ SIZE }
        requires body_room { vec_capacity body ≡ SIZE }
        requires buffer_room { vec_capacity buffer ≡ SIZE }
        ensures { found_body result ≡ body.items }
    {
        Found { body, buffer }
    }

    /// The body that was found.
    pub fn body(&self) -> &[u8]
        ensures { result.now ≡ found_body self.now }
    {
        &self.body
    }

    /// Brings each slot that isn't live with the body to it, internal 0, internal 1, external 0, external 1, and
    /// touches no other. By whatever ranks both flashes held this body at the start, they hold it together at each
    /// stop, whatever the slots held, half-written ones included.
    ///
    /// The caller owes that nothing is dirty, so that what was found stands in every image. A device is answered only
    /// where its count rose; a new survey then says what stands.
    pub fn heal<M: Machine>(self, m: &mut M) -> Result<Level<SIZE>, Dev>
        requires room { HaveRoom SIZE (M.told m.old).sizes }
        requires clean { ForSome (M.told m.old).flashes AreClean }

        ensures level { IfOk result (λ level. Stands (M.told m.new) level) }
        ensures body { IfOk result (λ level. body_of level ≡ found_body self.entry) }

        ensures ran { Runs (Heals (M.told m.old) SIZE (found_body self.entry)) (M.told m.old) (M.told m.new) }
        ensures exact { OnOk result (ForSome (M.told m.old).flashes
            (λ start. Runs (IsHeal SIZE (found_body self.entry) start) (M.told m.old) (M.told m.new))) }
        // Up to a fault it is a front of the same that was done, or all of it, where a read behind the last write failed.
        ensures cut { OnErr result (ForSome (M.told m.old).flashes
            (λ start. Runs (IsUpTo (IsHeal SIZE (found_body self.entry) start)) (M.told m.old) (M.told m.new))) }
        // Where all four slots are live with the body already, nothing is done.
        ensures idle { ForSome (M.told m.old).flashes
            (λ start. ((d : Dev) → IsTwin SIZE (found_body self.entry) (flash_of d start))
            → Does [] (M.told m.old) (M.told m.new)) }
        ensures fails { FailsAt port_of result (M.told m.old) (M.told m.new) }
    {
        let Found { body, mut buffer } = self;
        let internal = mend_twin(m, Dev::Internal, &body, &mut buffer)?;
        let external = mend_twin(m, Dev::External, &body, &mut buffer)?;
        Ok(Level::of(internal, external, body))
    }
}
