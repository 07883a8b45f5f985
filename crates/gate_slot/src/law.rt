//! What a fact of a slot means, and what it survives.
ghost use Rattle.std.specs.Prelude.{◌≡◌, ◌≢◌, ℕ, List, length};
ghost use Rattle.urna_outside.specs.Flash.{Op, Flash, Flashes, flash_of, after_one, part, IsImage, Stably};
ghost use Rattle.urna_outside.specs.declared.device.Dev.{Dev};
ghost use Rattle.gate_slot.specs.Slot.{IsGateShut, IsGateOpen, HasBody, open_gate, body_offset, gate_in};
ghost use Rattle.gate_slot.specs.Survival.{Misses, LiesOn};

/// Law of a slot's facts. What they say shows in every image of the flash, and bytes that stand stably, as a gate
/// or a body does, stand so after each operation that misses them.
pub fn facts_survive()
    ensures shut { (size index : ℕ) (flash : Flash) (image : List ℕ) → IsGateShut size index flash → IsImage flash image
        → gate_in size index image ≢ open_gate }
    ensures opened { (size index : ℕ) (flash : Flash) (image : List ℕ) → IsGateOpen size index flash → IsImage flash image
        → gate_in size index image ≡ open_gate }
    ensures body { (size index : ℕ) (body : List ℕ) (flash : Flash) (image : List ℕ)
        → HasBody size index body flash → IsImage flash image
        → part image (body_offset size index) (length body) ≡ body }

    ensures survive { (d : Dev) (at : ℕ) (bytes : List ℕ) (op : Op) (flashes : Flashes)
        → LiesOn flashes op → Misses d at (length bytes) op
        → Stably (flash_of d flashes) at bytes → Stably (flash_of d (after_one op flashes)) at bytes }
{}
