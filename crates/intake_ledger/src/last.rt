//! The hash of the last part of a report's file.
ghost use Rattle.std.specs.Prelude.{◌≡◌, ℕ, List};
ghost use Rattle.hash_chain.specs.Fault.{ArePartsOf};
ghost use Rattle.intake_ledger.specs.LastHash.{IsLastHash, last_hash, lines_of_text};

use crate::layout::HASH_SIZE;
use hex::decode_to_slice;

/// How many characters a hash has.
const HASH_TEXT: usize = hash_chain::HASH_SIZE;

/// How many bytes stand from where the last one begins up to the end of the file: the hash and a line feed.
const TAIL: usize = HASH_TEXT + 1;

/// The bytes of the hash of a file's last part. The caller owes that the file is the parts of a text.
pub(crate) fn hash_of(file: &[u8]) -> [u8; HASH_SIZE]
    requires { (text : List ℕ) × ArePartsOf file.now text }
    ensures { IsLastHash file.now result }
{
    let mut hash = [0; HASH_SIZE];
    let decoded = decode_to_slice(last_hash(file), &mut hash).is_ok();
    prove!(decoded);
    hash
}

/// The same hash, as it is written.
fn last_hash(file: &[u8]) -> &[u8]
    requires { (text : List ℕ) × ArePartsOf file.now text }
    ensures { (text : List ℕ) → ArePartsOf file.now text → result.now ≡ last_hash (lines_of_text text) }
{
    let at = file.len() - TAIL;
    &file[at..at + HASH_TEXT]
}
