//! Changes of a document.
use crate::halt::Halt;
use crate::words::{hex_bytes, number};
use hex::encode_upper;
use sha2::{Digest, Sha512};
use std::alloc::Global;
use std::str;

/// A text with what its signs stand for: a line feed is written `¶`, a blank at an end `␣`, and no byte at all `∅`.
fn with_signs_read(alloc: Global, text: &str) -> Result<String, Halt> {
    let text = text.replace(alloc, "¶", "\n")?;
    let text = text.replace(alloc, "␣", " ")?;
    Ok(text.replace(alloc, "∅", "")?)
}

/// The bytes of a text. One may be written by its two hexadecimal digits in `‹›`.
fn bytes_in(alloc: Global, text: &str) -> Result<Vec<u8>, Halt> {
    let mut bytes = Vec::new(alloc);
    for (i, part) in text.split("‹").enumerate() {
        let (digits, rest) = match part.split_once("›") {
            Some(parts) => parts,
            None if i == 0 => ("", part),
            None => return Err(Halt::Script),
        };
        bytes.extend_from_slice(&hex_bytes(alloc, digits)?)?;
        bytes.extend_from_slice(rest.as_bytes())?;
    }
    Ok(bytes)
}

/// What a piece of a change stands for.
fn piece_of(alloc: Global, text: &str) -> Result<Vec<u8>, Halt> {
    bytes_in(alloc, &with_signs_read(alloc, text)?)
}

/// The place of some bytes in others, from a place on.
fn found(bytes: &[u8], from: usize, piece: &[u8]) -> Option<usize> {
    (from..bytes.len()).find(|at| bytes[*at..].starts_with(piece))
}

/// Bytes in which a piece stands in the place of another, wherever that one stands.
fn replaced(alloc: Global, bytes: &[u8], old: &[u8], new: &[u8]) -> Result<Vec<u8>, Halt> {
    let mut made = Vec::new(alloc);
    let mut skip = 0usize;
    for at in 0..bytes.len() {
        if skip > 0 {
            skip -= 1;
        } else if bytes[at..].starts_with(old) {
            made.extend_from_slice(new)?;
            skip = old.len().saturating_sub(1);
        } else {
            made.push(bytes[at])?;
        }
    }
    Ok(made)
}

/// The bytes from the first place of one piece to the end of the other that stands next behind it.
fn stretch(alloc: Global, bytes: &[u8], first: &[u8], last: &[u8]) -> Result<Vec<u8>, Halt> {
    let Some(from) = found(bytes, 0, first) else {
        return Err(Halt::Script);
    };
    let Some(to) = found(bytes, from.saturating_add(first.len()), last) else {
        return Err(Halt::Script);
    };
    match bytes.get(from..to.saturating_add(last.len())) {
        Some(stretch) => Ok(stretch.to_vec(alloc)?),
        None => Err(Halt::Script),
    }
}

/// The bytes that a change takes out: a piece, or all from one piece to another, with ` .. ` between them.
fn old_of(alloc: Global, bytes: &[u8], text: &str) -> Result<Vec<u8>, Halt> {
    match text.split_once(" .. ") {
        Some((first, last)) => stretch(
            alloc,
            bytes,
            &piece_of(alloc, first)?,
            &piece_of(alloc, last)?,
        ),
        None => piece_of(alloc, text),
    }
}

/// The bytes that a change puts in: a piece, or with ` × N` behind it so many of them.
fn new_of(alloc: Global, text: &str) -> Result<Vec<u8>, Halt> {
    let Some((piece, times)) = text.rsplit_once(" × ") else {
        return piece_of(alloc, text);
    };
    let piece = piece_of(alloc, piece)?;
    let mut bytes = Vec::new(alloc);
    for _ in 0..number(times)? {
        bytes.extend_from_slice(&piece)?;
    }
    Ok(bytes)
}

/// A document with a change, which finds its place.
fn changed(alloc: Global, bytes: &[u8], change: &str) -> Result<Vec<u8>, Halt> {
    let Some((old, new)) = change.split_once(" => ") else {
        return Err(Halt::Script);
    };
    let old = old_of(alloc, bytes, old)?;
    if old.is_empty() || found(bytes, 0, &old).is_none() {
        return Err(Halt::Script);
    }
    replaced(alloc, bytes, &old, &new_of(alloc, new)?)
}

/// A document with changes, `OLD => NEW` with ` | ` between them.
pub fn edited(alloc: Global, bytes: &[u8], changes: &str) -> Result<Vec<u8>, Halt> {
    let mut bytes = bytes.to_vec(alloc)?;
    for change in changes.split(" | ") {
        bytes = changed(alloc, &bytes, change)?;
    }
    Ok(bytes)
}

/// The file of a report with the hash of each part made of that of the part before it and of the part's own text.
pub fn hashed(alloc: Global, bytes: &[u8]) -> Result<Vec<u8>, Halt> {
    let Ok(text) = str::from_utf8(bytes) else {
        return Err(Halt::Script);
    };
    let mut file = Vec::new(alloc);
    let mut before = String::new(alloc);
    for line in text.lines() {
        let part = match line.split_once(" HASH:") {
            Some((part, _)) => part,
            None => line,
        };
        before = hash_behind(alloc, &before, part)?;
        put_part(&mut file, part, &before)?;
    }
    Ok(file)
}

/// The hash of a part behind that of the part before it.
fn hash_behind(alloc: Global, before: &str, part: &str) -> Result<String, Halt> {
    let mut hasher = Sha512::new();
    hasher.update(before.as_bytes());
    hasher.update(part.as_bytes());
    Ok(encode_upper(alloc, hasher.finalize())?)
}

fn put_part(file: &mut Vec<u8>, part: &str, hash: &str) -> Result<(), Halt> {
    file.extend_from_slice(part.as_bytes())?;
    file.extend_from_slice(b" HASH:")?;
    file.extend_from_slice(hash.as_bytes())?;
    file.push(b'\n')?;
    Ok(())
}
