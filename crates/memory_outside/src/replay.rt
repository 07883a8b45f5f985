//! What a device was in the course of a tape.
ghost use Rattle.std.specs.Prelude.{◌≡◌, ℕ, ◌≤◌, List, length, take, IfOk};
ghost use Rattle.memory_outside.specs.Chip.{flash};
ghost use Rattle.urna_outside.specs.Flash.{Flashes, after, after_one, flash_of};
ghost use Rattle.memory_outside.specs.Kept.{end_of, kept_op, put_length};
ghost use Rattle.memory_outside.specs.Tape.{start_on, taped_ops};

use crate::chip::Chip;
use crate::tape::{Operation, Tape};
use std::alloc::{AllocError, Global};
use urna_outside::Dev;

/// Does to a device what an operation did to it. The bytes are those that the operation put.
fn redo(chip: &mut Chip, dev: Dev, op: Operation, bytes: &[u8])
    requires bytes { length bytes.now ≡ put_length op }
    requires within { end_of op ≤ length (flash chip.old).content }
    ensures done { (all : Flashes) (shown : List ℕ) → flash_of dev all ≡ flash chip.old
        → flash chip.new ≡ flash_of dev (after_one (kept_op op bytes.now shown) all) }
    ensures size { length (flash chip.new).content ≡ length (flash chip.old).content }
{
    match op {
        Operation::Put { dev: of, at, .. } => {
            if of == dev {
                chip.put(at, bytes);
            }
        }
        Operation::Sync(of) => {
            if of == dev {
                chip.sync();
            }
        }
        Operation::Show { .. } => {}
    }
}

/// A device as it was after the first so many operations of a tape.
pub(crate) fn replay(alloc: Global, tape: &Tape, dev: Dev, ops: u32) -> Result<Chip, AllocError>
    requires { ops ≤ length (taped_ops tape.now) }
    ensures { IfOk result (λ chip.
        flash chip ≡ flash_of dev (after (take ops (taped_ops tape.now)) (start_on tape.now))) }
{
    let mut chip = Chip::new(alloc, tape.start(dev).to_vec(alloc)?)?;
    let first = &tape.trail[..ops as usize];
    let mut from = 0;
    for op in first {
        let end = from + op.put_length();
        redo(&mut chip, dev, *op, &tape.puts[from..end]);
        from = end;
    }
    Ok(chip)
}
