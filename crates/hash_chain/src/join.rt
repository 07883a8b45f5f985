//! A file of parts is read.
ghost use Rattle.std.specs.Prelude.{◌≡◌, ◌≢◌, ◌==◌, ◌+◌, ◌<◌, ◌^◌, ◌++◌, ◌∷◌, [], ℕ, List, length, nat_le, nat_lt, ◌&&◌, position, IfOk, IfSome, MatchOption, MatchResult, OnOk, Err, None, Some};
ghost use Rattle.std.specs.Str.{bytes_eq};
ghost use Rattle.urna_base.specs.Words.{pieces, joined};
ghost use Rattle.hash_chain.specs.Chain.{chain_version, hashed_text};
ghost use Rattle.hash_chain.specs.Cut.{part_size};
ghost use Rattle.hash_chain.specs.Fault.{ArePartsOf, IsPartFault, failing_link, fault_of_link, fits_before, hash_before};
ghost use Rattle.hash_chain.specs.Hash.{hash_text};
ghost use Rattle.hash_chain.specs.Lines.{feeds_in, link_in, rows};
ghost use Rattle.hash_chain.specs.Reading.{MatchRead, said, said_before, with_part};
ghost use Rattle.hash_chain.specs.declared.fault.PartError.{PartError};
ghost use Rattle.hash_chain.specs.declared.fault.PartFault.{PartFault};

use crate::cut::PART_SIZE;
use crate::fault::{PartError, PartFault};
use crate::hash::hash_of;
use crate::line::{Link, VERSION, read_link};
use memchr::memchr;
use std::alloc::Global;
use urna_base::{Memory, split_piece};

/// The field text of which a file is the parts, or the fault of the file (docs/FORMATS.md, "Parts"); each file has one of both. The caller
/// owes that the file is shorter than 2^31 bytes. `Memory` comes only where an allocation failed.
pub fn join_parts(alloc: Global, bytes: &[u8]) -> Result<Vec<u8>, PartError>
    requires { length bytes.now < 2 ^ 31 }
    ensures ok { IfOk result (λ text. ArePartsOf bytes.now text.items) }
    ensures fault { (f : PartFault) → result ≡ Err (PartError.Fault f) → IsPartFault bytes.now f }
    ensures ok_there { result ≢ Err PartError.Memory → (text : List ℕ) → ArePartsOf bytes.now text → MatchResult result (λ t. t.items ≡ text) (λ e. ⊥) }
    ensures fault_there { result ≢ Err PartError.Memory → (f : PartFault) → IsPartFault bytes.now f → result ≡ Err (PartError.Fault f) }
{
    read_parts(alloc, bytes)
}

/// The same, told of the answer that there is: that there is no other follows from the laws of files.
fn read_parts(alloc: Global, bytes: &[u8]) -> Result<Vec<u8>, PartError>
    requires { length bytes.now < 2 ^ 31 }
    ensures { MatchRead result (λ text. ArePartsOf bytes.now text.items) (λ f. IsPartFault bytes.now f) }
{
    let feeds = count_feeds(bytes);
    // the text is no longer than the file
    let mut text = with_room(alloc, bytes.len())?;
    let mut before = None;
    let mut place = 1;
    let mut rest = bytes;
    while let Some((row, behind)) = split_row(rest) {
        let link = take_link(alloc, feeds, place, before, row)?;
        push_fields(&mut text, link.fields)?;
        before = Some(link);
        place += 1;
        rest = behind;
    }
    if rest.is_empty() && place > 1 {
        Ok(text)
    } else {
        Err(PartError::Fault(PartFault::Form(place)))
    }
}

/// No text, with room for so many bytes.
fn with_room(alloc: Global, bytes: usize) -> Result<Vec<u8>, Memory>
    ensures { IfOk result (λ text. text.items ≡ []) }
{
    Ok(Vec::with_capacity(alloc, bytes)?)
}

/// How many line feeds a file has.
fn count_feeds(bytes: &[u8]) -> u64
    ensures { result ≡ feeds_in bytes.now }
{
    let mut feeds = 0;
    let mut rest = bytes;
    while let Some((_row, behind)) = split_row(rest) {
        feeds += 1;
        rest = behind;
    }
    feeds
}

/// The bytes in front of the first line feed, and those behind it.
fn split_row(bytes: &[u8]) -> Option<(&[u8], &[u8])>
    ensures row { MatchOption result (rows bytes.now ≡ bytes.now ∷ []) (λ x. rows bytes.now ≡ x.0.now ∷ rows x.1.now) }
    ensures shorter { IfSome result (λ x. length x.1.now < length bytes.now) }
{
    match first_feed(bytes) {
        Some(end) => Some((&bytes[..end], &bytes[end + 1..])),
        None => None,
    }
}

/// Where the first line feed stands.
fn first_feed(bytes: &[u8]) -> Option<usize>
    ensures { result ≡ position (λ b. b == 10) bytes.now }
{
    memchr(b'\n', bytes)
}

/// Appends the fields of a part, behind a space where others stand before.
fn push_fields(text: &mut Vec<u8>, fields: &[u8]) -> Result<(), Memory>
    ensures { OnOk result (text.new.items ≡ with_part text.old.items fields.now) }
{
    if !text.is_empty() {
        text.push(b' ')?;
    }
    text.extend_from_slice(fields)?;
    Ok(())
}

/// The link at a place of a file with so many line feeds, behind the link before, or its fault.
fn take_link<'a>(
    alloc: Global,
    feeds: u64,
    place: u32,
    before: Option<Link<'_>>,
    row: &'a [u8],
) -> Result<Link<'a>, PartError>
    ensures fault { MatchRead result
        (λ l. fault_of_link feeds place (said_before before.entry) (link_in row.now) ≡ None)
        (λ f. fault_of_link feeds place (said_before before.entry) (link_in row.now) ≡ Some f) }
    ensures link { IfOk result (λ l. link_in row.now ≡ Some (said l)) }
{
    let Some(link) = read_link(row) else {
        return Err(PartError::Fault(PartFault::Form(place)));
    };
    match failing(alloc, feeds, place, before, link)? {
        Some(fault) => Err(PartError::Fault(fault)),
        None => Ok(link),
    }
}

/// The first test behind the form that fails.
#[tactic(auto, unfolding(crate::specs::Fault::failing_link))]
fn failing(
    alloc: Global,
    feeds: u64,
    place: u32,
    before: Option<Link<'_>>,
    link: Link<'_>,
) -> Result<Option<PartFault>, Memory>
    requires { link.text.now ≡ hashed_text (said link) }
    ensures { IfOk result (λ o. o ≡ failing_link feeds place (said_before before.entry) (said link.entry)) }
{
    if !has_version(link) {
        return Ok(Some(PartFault::Version(place)));
    }
    if !has_number(link, feeds, place) {
        return Ok(Some(PartFault::Number(place)));
    }
    if !has_hash(alloc, before, link)? {
        return Ok(Some(PartFault::Hash(place)));
    }
    if is_long(link.fields) || fits_before(before, link.fields) {
        return Ok(Some(PartFault::Cut(place)));
    }
    Ok(None)
}

/// Whether a link is of the version of this format.
fn has_version(link: Link<'_>) -> bool
    ensures { result ≡ bytes_eq link.entry.version.now chain_version }
{
    link.version == VERSION.as_slice()
}

/// Whether a link is the part that is due, of as many parts as the file has line feeds.
fn has_number(link: Link<'_>, feeds: u64, place: u32) -> bool
    ensures { result ≡ (link.entry.number == place && link.entry.parts == feeds) }
{
    link.number == u64::from(place) && link.parts == feeds
}

/// Whether the hash of a link is that of the hash before and its text.
fn has_hash(alloc: Global, before: Option<Link<'_>>, link: Link<'_>) -> Result<bool, Memory>
    ensures { IfOk result (λ b. b ≡ bytes_eq link.entry.hash.now (hash_text (hash_before (said_before before.entry) ++ link.entry.text.now))) }
{
    let hash = hash_of(alloc, hash_before(before), link.text)?;
    Ok(link.hash == hash.as_bytes())
}

/// The hash from which a link's goes on: none before the first one.
fn hash_before<'a>(before: Option<Link<'a>>) -> &'a [u8]
    ensures { result.now ≡ hash_before (said_before before.entry) }
{
    match before {
        Some(link) => link.hash,
        None => &[],
    }
}

/// Whether fields are more than a part has.
#[tactic(auto, using(crate::proofs::PieceLaws::joined_pieces))]
fn is_long(fields: &[u8]) -> bool
    ensures { result ≡ nat_lt part_size (length (joined (pieces fields.now))) }
{
    fields.len() > PART_SIZE
}

/// Whether the first of these fields would have fitted into the part of the link before.
fn fits_before(before: Option<Link<'_>>, fields: &[u8]) -> bool
    ensures { result ≡ fits_before (said_before before.entry) (pieces fields.now) }
{
    match before {
        Some(link) => fits_behind(link.fields, split_piece(fields).0),
        None => false,
    }
}

/// Whether a field would have fitted behind the fields of a part.
#[tactic(auto, using(crate::proofs::PieceLaws::joined_pieces))]
fn fits_behind(part: &[u8], field: &[u8]) -> bool
    ensures { result ≡ nat_le (length (joined (pieces part.now)) + 1 + length field.now) part_size }
{
    part.len() + 1 + field.len() <= PART_SIZE
}
