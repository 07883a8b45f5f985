//! What a power cut leaves of a machine in memory.
use crate::flashes::{Flashes, set};
use crate::halt::Halt;
use crate::kept::{Kept, kept_as};
use crate::words::hex_bytes;
use memory_outside::{Recorder, Tear};
use std::alloc::Global;
use urna_base::Memory;
use urna_outside::Dev;

/// The ways in which torn bytes may stand, by their names. Bytes of one value can't show a missing sync between a body and its gate;
/// those of flashes that hold a later state can.
pub const WAYS: [(&str, Tear); 4] = [
    ("whole", Tear::AsPut),
    ("00", Tear::Byte(0)),
    ("5A", Tear::Byte(0x5A)),
    ("A5", Tear::Byte(0xA5)),
];

/// What stands in dirty bytes.
#[derive(Clone, Copy)]
pub enum Fill<'a> {
    /// What a tear says.
    Torn(Tear),
    /// What these flashes have there.
    Like(&'a Flashes),
}

/// How torn bytes stand, by a word: as put, as the byte of two hexadecimal digits, or as on the kept flashes of that name.
pub fn fill_of<'a>(alloc: Global, kept: &'a [Kept], word: &str) -> Result<Fill<'a>, Halt> {
    if word == "whole" {
        return Ok(Fill::Torn(Tear::AsPut));
    }
    if let Ok(flashes) = kept_as(kept, word) {
        return Ok(Fill::Like(flashes));
    }
    match hex_bytes(alloc, word)?.as_slice() {
        [byte] => Ok(Fill::Torn(Tear::Byte(*byte))),
        _ => Err(Halt::Script),
    }
}

fn torn(alloc: Global, m: &Recorder, ops: u32, tear: Tear) -> Result<Flashes, Halt> {
    if ops > m.trail_len() {
        return Err(Halt::Script);
    }
    Ok(Flashes {
        internal: m.stop(alloc, Dev::Internal, ops, tear)?,
        external: m.stop(alloc, Dev::External, ops, tear)?,
    })
}

/// What a power cut leaves after the first operations of a machine's trail.
pub fn power_cut(alloc: Global, m: &Recorder, ops: u32, fill: Fill<'_>) -> Result<Flashes, Halt> {
    match fill {
        Fill::Torn(tear) => torn(alloc, m, ops, tear),
        Fill::Like(other) => {
            let zeros = torn(alloc, m, ops, Tear::Byte(0))?;
            let ones = torn(alloc, m, ops, Tear::Byte(1))?;
            if !have_same_sizes(&zeros, other) {
                return Err(Halt::Script);
            }
            Ok(Flashes {
                internal: filled(alloc, &zeros.internal, &ones.internal, &other.internal)?,
                external: filled(alloc, &zeros.external, &ones.external, &other.external)?,
            })
        }
    }
}

fn have_same_sizes(one: &Flashes, other: &Flashes) -> bool {
    one.internal.len() == other.internal.len() && one.external.len() == other.external.len()
}

/// An image with the bytes of another one wherever two tears differ, which is where it is dirty.
fn filled(alloc: Global, zeros: &[u8], ones: &[u8], other: &[u8]) -> Result<Vec<u8>, Memory> {
    let mut image = zeros.to_vec(alloc)?;
    for ((place, one), byte) in image.iter_mut().zip(ones).zip(other) {
        if *place != *one {
            *place = *byte;
        }
    }
    Ok(image)
}

/// What a power cut leaves inside an operation: those before it are done, and it has put its bytes up to a place of the flash.
pub fn power_cut_inside(alloc: Global, m: &Recorder, ops: u32, at: usize) -> Result<Flashes, Halt> {
    let old = torn(alloc, m, ops, Tear::AsPut)?;
    let new = torn(alloc, m, ops.saturating_add(1), Tear::AsPut)?;
    Ok(Flashes {
        internal: joined(alloc, &new.internal, &old.internal, at)?,
        external: joined(alloc, &new.external, &old.external, at)?,
    })
}

/// The front of one image and the rest of another.
fn joined(alloc: Global, new: &[u8], old: &[u8], at: usize) -> Result<Vec<u8>, Memory> {
    let mut image = old.to_vec(alloc)?;
    set(&mut image, 0, new.get(..at).unwrap_or(new));
    Ok(image)
}
