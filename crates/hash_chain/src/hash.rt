//! The hash of a part.
ghost use Rattle.std.specs.Prelude.{◌≡◌, ◌++◌, IfOk, string_bytes};
ghost use Rattle.std.specs.List.{list_all};
ghost use Rattle.hash_chain.specs.Hash.{hash_text, is_hash, is_hex};

use hex::encode_upper;
use sha2::{Digest, Sha512};
use std::alloc::Global;
use urna_base::Memory;

/// How many characters a hash has.
pub const HASH_SIZE: usize = 128;

/// The hash of a part's text, which goes on from the hash of the part before it: from nothing at the first part.
#[tactic(auto, unfolding(crate::specs::Hash::hash_text))]
pub(crate) fn hash_of(alloc: Global, before: &[u8], text: &[u8]) -> Result<String, Memory>
    ensures { IfOk result (λ hash. string_bytes hash ≡ hash_text (before.now ++ text.now)) }
{
    let mut hasher = Sha512::new();
    hasher.update(before);
    hasher.update(text);
    Ok(encode_upper(alloc, hasher.finalize())?)
}

/// Whether some bytes have the form of a hash.
pub(crate) fn is_hash(bytes: &[u8]) -> bool
    ensures { result ≡ is_hash bytes.now }
{
    bytes.len() == HASH_SIZE && are_hex(bytes)
}

fn are_hex(bytes: &[u8]) -> bool
    ensures { result ≡ list_all is_hex bytes.now }
{
    bytes.iter().all(|byte| is_hex(*byte))
}

fn is_hex(byte: u8) -> bool
    ensures { result ≡ is_hex byte }
{
    byte.is_ascii_digit() || matches!(byte, b'A'..=b'F')
}
