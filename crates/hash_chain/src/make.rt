//! The parts of a field text.
ghost use Rattle.std.specs.Prelude.{◌≡◌, ◌++◌, ◌∷◌, codes, [], IfOk, OnOk, length, string_bytes};
ghost use Rattle.urna_base.specs.Words.{pieces};
ghost use Rattle.hash_chain.specs.Chain.{link_text, links_from, links_text, link_of, parts_text};
ghost use Rattle.hash_chain.specs.Cut.{cut};
ghost use Rattle.hash_chain.specs.Fault.{AreFields};
ghost use Rattle.hash_chain.specs.Reading.{plain_text};

use crate::cut::split_part;
use crate::hash::hash_of;
use crate::line::VERSION;
use std::alloc::Global;
use urna_base::{Memory, put_numbered};

/// The file of a field text: its parts, one line for each (docs/FORMATS.md, "Parts").
///
/// The caller owes that the text has at least one field, single spaces between them, only bytes `0x21` to `0x7E` in them, and no field
/// that begins with `HASH:` or is longer than 1,000 bytes. `Memory` comes only where an allocation failed.
#[tactic(auto, unfolding(crate::specs::Chain::parts_text))]
pub fn make_parts(alloc: Global, fields: &[u8]) -> Result<Vec<u8>, Memory>
    requires { AreFields (pieces fields.now) }
    ensures { IfOk result (λ file. file.items ≡ parts_text fields.now) }
{
    let mut file = Vec::new(alloc);
    put_parts(alloc, &mut file, count_parts(fields), fields)?;
    Ok(file)
}

/// How many parts the file of a field text has (docs/FORMATS.md, "Parts").
///
/// The caller owes the same of the text.
#[tactic(auto, using(crate::proofs::PutLaws::no_cut))]
pub fn count_parts(fields: &[u8]) -> u64
    requires { AreFields (pieces fields.now) }
    ensures { result ≡ length (cut (pieces fields.now)) }
{
    let mut count = 0;
    let mut rest = Some(fields);
    while let Some(text) = rest {
        rest = split_part(text).1;
        count += 1;
    }
    count
}

/// Appends the lines of all parts, of which there are so many.
#[tactic(auto, using(crate::proofs::PutLaws::no_cut))]
fn put_parts(alloc: Global, out: &mut Vec<u8>, parts: u64, fields: &[u8]) -> Result<(), Memory>
    requires fields { AreFields (pieces fields.now) }
    requires count { parts ≡ length (cut (pieces fields.now)) }
    ensures { OnOk result (out.new.items ≡ out.old.items ++ links_text (links_from parts 1 [] (cut (pieces fields.now)))) }
{
    let mut number = 1;
    let mut hash = String::new(alloc);
    let mut rest = Some(fields);
    while let Some(text) = rest {
        let (part, behind) = split_part(text);
        hash = put_line(alloc, out, parts, number, hash.as_bytes(), part)?;
        number += 1;
        rest = behind;
    }
    Ok(())
}

/// Appends the line of a part, and answers its hash.
fn put_line(
    alloc: Global,
    out: &mut Vec<u8>,
    parts: u64,
    number: u64,
    before: &[u8],
    fields: &[u8],
) -> Result<String, Memory>
    ensures line { OnOk result (out.new.items ≡ out.old.items ++ (link_text (link_of parts number before.now (pieces fields.now)) ++ 10 ∷ [])) }
    ensures hash { IfOk result (λ hash. string_bytes hash ≡ (link_of parts number before.now (pieces fields.now)).hash) }
{
    let start = out.len();
    put_text(out, parts, number, fields)?;
    let hash = hash_of(alloc, before, &out[start..])?;
    put_hash(out, hash.as_bytes())?;
    Ok(hash)
}

/// Appends the hash of a part, and ends its line.
fn put_hash(out: &mut Vec<u8>, hash: &[u8]) -> Result<(), Memory>
    ensures { OnOk result (out.new.items ≡ out.old.items ++ (codes " HASH:" ++ (hash.now ++ 10 ∷ []))) }
{
    out.extend_from_slice(b" HASH:")?;
    out.extend_from_slice(hash)?;
    out.push(b'\n')?;
    Ok(())
}

/// Appends what is hashed of a part.
fn put_text(out: &mut Vec<u8>, parts: u64, number: u64, fields: &[u8]) -> Result<(), Memory>
    ensures { OnOk result (out.new.items ≡ out.old.items ++ plain_text parts number fields.now) }
{
    put_numbered(out, b"QRBU:", number)?;
    put_numbered(out, b":", parts)?;
    out.extend_from_slice(b" VRQR:")?;
    out.extend_from_slice(&VERSION)?;
    out.push(b' ')?;
    out.extend_from_slice(fields)?;
    Ok(())
}
