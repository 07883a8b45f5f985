//! The line of a part is taken apart.
ghost use Rattle.std.specs.Prelude.{◌≡◌, ◌==◌, ◌+◌, ◌∷◌, codes, is_none, not, ◌<◌, ◌≤◌, length, position, slice_index, take, false, true, IfSome, IsNone, MatchOption, None, Some};
ghost use Rattle.std.specs.List.{list_all, slice_split};
ghost use Rattle.std.specs.Option.{option_copied};
ghost use Rattle.urna_base.specs.Words.{after_word, pieces, pieces_left};
ghost use Rattle.hash_chain.specs.Chain.{hashed_text};
ghost use Rattle.hash_chain.specs.Lines.{is_field, is_word, link_in, two_numbers};
ghost use Rattle.hash_chain.specs.Reading.{is_printed, link_by, numbers_in, said, tail_of, version_in};

use crate::hash::{HASH_SIZE, is_hash};
use urna_base::{after, decimal, first_place, split_piece};

/// The version of this format.
pub(crate) const VERSION: [u8; 2] = *b"U1";

/// What stands between the fields of a part and its hash.
const HASH_KEY: [u8; 6] = *b" HASH:";

/// How many bytes stand behind the fields of a part.
const TAIL_SIZE: usize = HASH_KEY.len() + HASH_SIZE;

/// What the line of a part says, taken apart.
#[derive(Clone, Copy, Debug)]
pub(crate) struct Link<'a> {
    pub number: u64,
    pub parts: u64,
    pub version: &'a [u8],
    pub fields: &'a [u8],
    pub hash: &'a [u8],
    /// What is hashed of it.
    pub text: &'a [u8],
}

/// The link of a row, if it is of the form.
pub(crate) fn read_link(row: &[u8]) -> Option<Link<'_>>
    ensures link { MatchOption result (link_in row.now ≡ None) (λ l. link_in row.now ≡ Some (said l)) }
    ensures text { IfSome result (λ l. l.text.now ≡ hashed_text (said l)) }
{
    let (heading, version, tail) = split_pieces(row)?;
    let (number, parts) = numbers_of(heading)?;
    let version = version_of(version)?;
    let (fields, hash) = split_hash(tail)?;
    let text = &row[..row.len() - TAIL_SIZE];
    Some(Link {
        number,
        parts,
        version,
        fields,
        hash,
        text,
    })
}

/// The first two pieces of a line, and what stands behind them.
fn split_pieces(row: &[u8]) -> Option<(&[u8], &[u8], &[u8])>
    ensures { MatchOption result (link_in row.now ≡ None) (λ x. link_in row.now ≡ link_by (numbers_in x.0.now) (version_in x.1.now) (tail_of x.2.now)) }
{
    let (heading, behind) = split_piece(row);
    let Some(rest) = behind else {
        return None;
    };
    let (version, behind) = split_piece(rest);
    let Some(tail) = behind else {
        return None;
    };
    Some((heading, version, tail))
}

/// Which part of how many a line is, from its first piece.
fn numbers_of(piece: &[u8]) -> Option<(u64, u64)>
    ensures { result ≡ numbers_in piece.now }
{
    two_numbers(after(b"QRBU:", piece)?)
}

/// Two numbers with a colon between them.
fn two_numbers(text: &[u8]) -> Option<(u64, u64)>
    ensures { result ≡ two_numbers (slice_split (λ b. b == 58) text.now) }
{
    let colon = first_place(b':', text)?;
    let first = decimal(&text[..colon])?;
    let second = decimal(&text[colon + 1..])?;
    Some((first, second))
}

/// The version of a line, from its second piece.
fn version_of(piece: &[u8]) -> Option<&[u8]>
    ensures { option_copied result ≡ version_in piece.now }
{
    let version = after(b"VRQR:", piece)?;
    if is_word(version) {
        Some(version)
    } else {
        None
    }
}

/// The fields and the hash of a line, from what stands behind its first two pieces.
fn split_hash(rest: &[u8]) -> Option<(&[u8], &[u8])>
    ensures { MatchOption result (tail_of rest.now ≡ None) (λ x. tail_of rest.now ≡ Some (pieces x.0.now, x.1.now)) }
{
    if rest.len() < TAIL_SIZE {
        return None;
    }
    let (fields, tail) = rest.split_at(rest.len() - TAIL_SIZE);
    match after(&HASH_KEY, tail) {
        Some(hash) if is_hash(hash) && are_fields(fields) => Some((fields, hash)),
        _ => None,
    }
}

/// Whether each piece of a text is a field.
fn are_fields(text: &[u8]) -> bool
    ensures { result ≡ list_all is_field (pieces text.now) }
{
    let mut rest = Some(text);
    while let Some(text) = rest {
        match behind_field(text) {
            Some(behind) => rest = behind,
            None => return false,
        }
    }
    true
}

/// What stands behind the first piece and its space, if there is one; `None` where that piece is no field.
fn behind_field(text: &[u8]) -> Option<Option<&[u8]>>
    ensures field { MatchOption result (list_all is_field (pieces text.now) ≡ false) (λ rest. list_all is_field (pieces text.now) ≡ list_all is_field (pieces_left rest)) }
    ensures fewer { IfSome result (λ rest. length (pieces text.now) ≡ length (pieces_left rest) + 1) }
{
    match split_word(text) {
        Some((word, rest)) if !word.is_empty() && !begins_hash(word) => Some(rest),
        _ => None,
    }
}

/// The first piece and what stands behind its space, if there is one; `None` where a byte of that piece isn't printed.
fn split_word(text: &[u8]) -> Option<(&[u8], Option<&[u8]>)>
    ensures other { IsNone result → list_all is_field (pieces text.now) ≡ false }
    ensures split { IfSome result (λ x. pieces text.now ≡ x.0.now ∷ pieces_left x.1) }
    ensures word { IfSome result (λ x. list_all is_printed x.0.now ≡ true) }
{
    let end = word_end(text);
    if end == text.len() {
        return Some((text, None));
    }
    if text[end] != b' ' {
        return None;
    }
    Some((&text[..end], Some(&text[end + 1..])))
}

/// Where the printed bytes at the front of a text end.
fn word_end(text: &[u8]) -> usize
    ensures within { result ≤ length text.now }
    ensures word { list_all is_printed (take result text.now) ≡ true }
    ensures behind { result < length text.now → is_printed (slice_index text.now result) ≡ false }
{
    match first_other(text) {
        Some(end) => end,
        None => text.len(),
    }
}

/// Where the first byte stands that isn't printed, or is a space.
fn first_other(text: &[u8]) -> Option<usize>
    ensures { result ≡ position (λ b. not (is_printed b)) text.now }
{
    text.iter().position(|byte| !is_printed(*byte))
}

/// Whether a piece begins as the hash of a part does.
fn begins_hash(piece: &[u8]) -> bool
    ensures { result ≡ not (is_none (after_word (codes "HASH:") piece.now)) }
{
    after(b"HASH:", piece).is_some()
}

/// Whether some bytes are a word.
fn is_word(bytes: &[u8]) -> bool
    ensures { result ≡ is_word bytes.now }
{
    !bytes.is_empty() && are_printed(bytes)
}

fn are_printed(bytes: &[u8]) -> bool
    ensures { result ≡ list_all is_printed bytes.now }
{
    bytes.iter().all(|byte| is_printed(*byte))
}

/// Whether a byte is printed, and no space.
fn is_printed(byte: u8) -> bool
    ensures { result ≡ is_printed byte }
{
    matches!(byte, 0x21..=0x7E)
}
