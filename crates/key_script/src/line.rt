ghost use Rattle.std.specs.Prelude.{◌≡◌, ◌<◌, length, MatchOption, IfSome, IsSome, None, is_some};
ghost use Rattle.std.specs.List.{list_all};
ghost use Rattle.std.specs.Option.{option_and_then, option_map};
ghost use Rattle.std.specs.Str.{bytes_eq};
ghost use Rattle.urna_base.specs.Digits.{digits_value};
ghost use Rattle.urna_base.specs.Words.{after_word};
ghost use Rattle.key_script.specs.Script.{moment_value, clerk_line, key_of_byte, voter_event, events_of_keys, voter_line, events_of_line};

use crate::keys::{ClerkKey, Event, Key};
use urna_base::{after, digits, moment_ok};

/// The clerk's key that a line spells.
fn clerk_key(line: &[u8]) -> Option<ClerkKey>
    ensures { result ≡ clerk_line line.now }
{
    if let Some(moment) = moment_after(b"M ABRE ", line) {
        return Some(ClerkKey::Abre(moment));
    }
    if let Some(title) = title_after(b"M TITULO ", line) {
        return Some(ClerkKey::Titulo(title));
    }
    if is_word(line, b"M LIBERA") {
        return Some(ClerkKey::Libera);
    }
    if is_word(line, b"M CANCELA") {
        return Some(ClerkKey::Cancela);
    }
    if is_word(line, b"M SUSPENDE") {
        return Some(ClerkKey::Suspende);
    }
    if let Some(moment) = moment_after(b"M ENCERRA ", line) {
        return Some(ClerkKey::Encerra(moment));
    }
    None
}

/// The bytes of a voter's line that spell keys: at least one.
pub(crate) fn voter_keys(line: &[u8]) -> Option<&[u8]>
    ensures value { MatchOption result (voter_line line.now ≡ None) (λ keys. voter_line line.now ≡ events_of_keys keys.now) }
    ensures some { IfSome result (λ keys. 0 < length keys.now) }
    ensures valid { IfSome result (λ keys. IsSome (events_of_keys keys.now)) }
{
    let keys = after(b"E ", line)?;
    if !keys.is_empty() && are_keys(keys) {
        Some(keys)
    } else {
        None
    }
}

/// Whether a line is of the form.
pub(crate) fn has_form(line: &[u8]) -> bool
    ensures { result ≡ is_some (events_of_line line.now) }
{
    voter_keys(line).is_some() || clerk_key(line).is_some()
}

/// The event of a clerk's line.
pub(crate) fn clerk_event(line: &[u8]) -> Option<Event>
    ensures { result ≡ option_map (λ key. Event.Clerk key) (clerk_line line.now) }
{
    clerk_key(line).map(Event::Clerk)
}

/// The event of a byte that spells a key.
pub(crate) fn key_event(byte: u8) -> Option<Event>
    ensures { result ≡ voter_event byte }
{
    key_of(byte).map(Event::Voter)
}

/// The voter's key that a byte spells.
fn key_of(byte: u8) -> Option<Key>
    ensures { result ≡ key_of_byte byte }
{
    match byte {
        b'0'..=b'9' => Some(Key::Digit(byte - b'0')),
        b'B' => Some(Key::Blank),
        b'R' => Some(Key::Correct),
        b'C' => Some(Key::Confirm),
        _ => None,
    }
}

/// Whether each byte spells a key.
fn are_keys(keys: &[u8]) -> bool
    ensures { result ≡ list_all (λ c. is_some (key_of_byte c)) keys.now }
{
    keys.iter().all(|byte| key_of(*byte).is_some())
}

/// The valid moment that follows a word and ends the line.
fn moment_after(word: &[u8], line: &[u8]) -> Option<u64>
    ensures { result ≡ option_and_then moment_value (after_word word.now line.now) }
{
    let moment = digits(after(word, line)?, 14)?;
    if moment_ok(moment) {
        Some(moment)
    } else {
        None
    }
}

/// The title of 12 digits that follows a word and ends the line.
fn title_after(word: &[u8], line: &[u8]) -> Option<u64>
    ensures { result ≡ option_and_then (λ text. digits_value 12 text) (after_word word.now line.now) }
{
    digits(after(word, line)?, 12)
}

/// Whether a line is a word and nothing else.
fn is_word(line: &[u8], word: &[u8]) -> bool
    ensures { result ≡ bytes_eq line.now word.now }
{
    line == word
}
