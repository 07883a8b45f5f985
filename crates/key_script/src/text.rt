ghost use Rattle.std.specs.Prelude.{◌≡◌, ◌^◌, ◌<◌, length, All, None, Some, IfOk, IfErr, vec_len};
ghost use Rattle.std.specs.Iterator.{YieldsFirst, item_count};
ghost use Rattle.key_script.specs.Script.{events_of, first_bad};
ghost use Rattle.key_script.specs.Event.{IsEvent};

use crate::keys::Event;
use crate::line::{clerk_event, has_form, key_event, voter_keys};
use std::marker::Model;
use urna_base::split_line;

/// The number, from 1, of the first line that isn't of the form.
#[derive(Clone, Copy, Debug, PartialEq, Eq)]
pub struct LineError {
    pub line: u32,
}

/// Recorded key presses. A contract sees a script as the list of its events.
#[derive(Drop)]
pub struct Script {
    text: Vec<u8>,
}

impl Model for Script {
    ghost use Rattle.std.specs.Prelude.{◌^◌, ◌<◌, List, [], length, IsSome, unwrap_or};
    ghost use Rattle.key_script.specs.declared.keys.Event.{Event};

    ghost Value = { List Event };

    ghost use Rattle.key_script.specs.Script.{events_of};

    ghost view = { λ s. unwrap_or (events_of s.text.items) [] };

    ghost invariant = { λ s. IsSome (events_of s.text.items) × (length s.text.items < 2 ^ 31) };
}

/// The events of a script that are left, in order. A contract sees it as their list.
#[derive(Drop)]
pub struct Events<'a> {
    // The bytes of the present line that are still to be pressed, and the lines after it.
    keys: &'a [u8],
    text: &'a [u8],
}

impl<'a> Model for Events<'a> {
    ghost use Rattle.std.specs.Prelude.{◌++◌, List, [], IsSome, unwrap_or};
    ghost use Rattle.key_script.specs.declared.keys.Event.{Event};

    ghost Value = { List Event };

    ghost use Rattle.key_script.specs.Script.{events_of, events_of_keys};

    ghost view = { λ e. unwrap_or (events_of_keys e.keys.now) [] ++ unwrap_or (events_of e.text.now) [] };

    ghost invariant = { λ e. IsSome (events_of_keys e.keys.now) × IsSome (events_of e.text.now) };
}

impl Script {
    /// The script that a text spells, or the number of its first line that isn't of the form (docs/FORMATS.md, "Keys").
    /// It takes no memory. The caller owes that the text is shorter than 2^31 bytes.
    pub fn read(bytes: Vec<u8>) -> Result<Script, LineError>
        requires { vec_len bytes < 2 ^ 31 }
        ensures script { IfOk result (λ script. events_of bytes.items ≡ Some script) }
        ensures fault { IfErr result (λ error. first_bad bytes.items ≡ Some error.line) }
    {
        match first_bad_line(&bytes) {
            Some(line) => Err(LineError { line }),
            None => Ok(Script { text: bytes }),
        }
    }

    /// The events in order. Each is valid: a digit is 0 to 9, a moment is one, and a title is below 10 to the 12.
    /// There are fewer than 2^31.
    pub fn events(&self) -> Events<'_>
        ensures all { result ≡ self.now }
        ensures valid { All IsEvent self.now }
        ensures few { length self.now < 2 ^ 31 }
    {
        Events {
            keys: &[],
            text: &self.text,
        }
    }
}

impl<'a> Iterator for Events<'a> {
    type Item = Event;

    ghost next_gives = { YieldsFirst (λ left. left) };

    ghost remaining = { item_count (λ left. left) };

    fn next(&mut self) -> Option<Event> {
        if let Some((first, others)) = self.keys.split_first() {
            self.keys = others;
            return key_event(*first);
        }
        let (line, rest) = split_line(self.text)?;
        self.text = rest;
        let Some(keys) = voter_keys(line) else {
            return clerk_event(line);
        };
        let (first, others) = keys.split_first()?;
        self.keys = others;
        key_event(*first)
    }
}

/// The number of the first line that isn't of the form.
fn first_bad_line(text: &[u8]) -> Option<u32>
    requires { length text.now < 2 ^ 31 }
    ensures { result ≡ first_bad text.now }
{
    let mut rest = text;
    let mut number = 1;
    while let Some((line, others)) = split_line(rest) {
        if !has_form(line) {
            return Some(number);
        }
        rest = others;
        number += 1;
    }
    None
}
