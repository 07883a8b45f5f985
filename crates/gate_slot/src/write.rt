//! Writes that are synced.
ghost use Rattle.std.specs.Prelude.{◌≡◌, ◌+◌, ◌*◌, ◌%◌, ◌≤◌, ◌∷◌, [], ◌++◌, length, OnOk, OnErr};
ghost use Rattle.urna_outside.specs.Flash.{Put, Sync};
ghost use Rattle.urna_outside.specs.Confined.{IsInRange};
ghost use Rattle.urna_outside.specs.Faults.{FailsAt};
ghost use Rattle.urna_outside.specs.Told.{Does, Runs, size_of, port_of};
ghost use Rattle.gate_slot.specs.Front.{IsFrontOf};
ghost use Rattle.gate_slot.specs.Page.{AreChanges, IsOfChanged, IsPatch, changed_pages, page_size, put_pages};
ghost use Rattle.gate_slot.specs.Slot.{IsOneWrite};

use crate::changes::{Changes, PAGE_SIZE};
use urna_outside::{Dev, Failed, Machine};

/// Writes bytes and syncs their device.
pub(crate) fn write_through<M: Machine>(
    m: &mut M,
    dev: Dev,
    at: u32,
    bytes: &[u8],
) -> Result<(), Failed>
    requires { at + length bytes.now ≤ size_of dev (M.told m.old).sizes }
    ensures ok { OnOk result (Does (Put dev at bytes.now ∷ Sync dev ∷ []) (M.told m.old) (M.told m.new)) }
    ensures cut { OnErr result (Runs (IsFrontOf (Put dev at bytes.now ∷ Sync dev ∷ [])) (M.told m.old) (M.told m.new)) }
    ensures ran { Runs (IsOneWrite dev (IsInRange at (length bytes.now))) (M.told m.old) (M.told m.new) }
    ensures fails { FailsAt (λ failed. port_of dev) result (M.told m.old) (M.told m.new) }
{
    m.write(dev, at, bytes)?;
    m.sync(dev)
}

/// Writes each page in which two bodies differ, rising; `changes` says which.
pub(crate) fn write_pages<M: Machine>(
    m: &mut M,
    dev: Dev,
    at: u32,
    old: &[u8],
    new: &[u8],
    changes: &Changes,
) -> Result<(), Failed>
    requires room { at + length new.now ≤ size_of dev (M.told m.old).sizes }
    requires same_length { length old.now ≡ length new.now }
    requires pages { length new.now % page_size ≡ 0 }
    requires changes { AreChanges changes.now old.now new.now }
    ensures ok { OnOk result (Does (put_pages dev at old.now new.now) (M.told m.old) (M.told m.new)) }
    ensures cut { OnErr result (Runs (IsFrontOf (put_pages dev at old.now new.now)) (M.told m.old) (M.told m.new)) }
    ensures fails { FailsAt (λ failed. port_of dev) result (M.told m.old) (M.told m.new) }
{
    for page in 0..new.len() / PAGE_SIZE {
        let from = page * PAGE_SIZE;
        if changes.has(page, old, new) {
            m.write(dev, at + from as u32, &new[from..from + PAGE_SIZE])?;
        }
    }
    Ok(())
}

/// Writes each page in which two bodies differ, and syncs their device; `changes` says which.
pub(crate) fn patch_through<M: Machine>(
    m: &mut M,
    dev: Dev,
    at: u32,
    old: &[u8],
    new: &[u8],
    changes: &Changes,
) -> Result<(), Failed>
    requires room { at + length new.now ≤ size_of dev (M.told m.old).sizes }
    requires same_length { length old.now ≡ length new.now }
    requires pages { length new.now % page_size ≡ 0 }
    requires changes { AreChanges changes.now old.now new.now }
    ensures ok { OnOk result (Does (put_pages dev at old.now new.now ++ Sync dev ∷ []) (M.told m.old) (M.told m.new)) }
    ensures cut { OnErr result (Runs (IsFrontOf (put_pages dev at old.now new.now ++ Sync dev ∷ []))
        (M.told m.old) (M.told m.new)) }
    ensures ran { Runs (IsPatch dev (IsOfChanged at old.now new.now) (page_size * length (changed_pages old.now new.now)))
        (M.told m.old) (M.told m.new) }
    ensures fails { FailsAt (λ failed. port_of dev) result (M.told m.old) (M.told m.new) }
{
    write_pages(m, dev, at, old, new, changes)?;
    m.sync(dev)
}
