//! The roll of a section: the titles of its voters, one on each line, rising.
ghost use Rattle.std.specs.Prelude.{◌≡◌, ◌≢◌, ◌^◌, ◌==◌, ◌<◌, ◌≤◌, ℕ, false, Some, Err, IsOk, IfOk, MatchResult, length, position, slice_get};
ghost use Rattle.urna_base.specs.Lines.{lines_of};
ghost use Rattle.election_tables.specs.Limits.{most_voters};
ghost use Rattle.election_tables.specs.Roll.{HasBadLine, IsRoll, IsRollOf, IsRollText, has_count};
ghost use Rattle.election_tables.specs.RollAnswer.{AreTitlesOn, IsFaultOn, title_below};

use crate::limits::MOST_VOTERS;
use sha2::{Digest, Sha256};
use std::alloc::Global;
use std::marker::Model;
use thiserror::Error;
use urna_base::{digits, split_line};

/// Why some bytes are no roll.
#[derive(Clone, Copy, Debug, PartialEq, Eq, Error)]
pub enum RollError {
    /// Memory ran out.
    #[error("out of memory")]
    Memory,
    /// There aren't 1 to `MOST_VOTERS` lines.
    #[error("the roll has no lines or too many")]
    Count,
    /// The first line, counted from 1, that isn't a title of 12 digits greater than the line before.
    #[error("line {0} of the roll is no title greater than the line before")]
    Line(u32),
}

/// The roll of a section. A voter's place is that of the title, from 0. Contracts see it as `RollData`
/// (`specs/Roll.antt`).
#[derive(Drop)]
pub struct Roll {
    titles: Vec<u64>,
    digest: [u8; 32],
}

impl Model for Roll {
    ghost use Rattle.election_tables.specs.Roll.{RollData, IsRoll};

    ghost Value = { RollData };

    ghost view = { λ r. record { titles = r.titles.items; digest = r.digest } };

    ghost invariant = { λ r. IsRoll (record { titles = r.titles.items; digest = r.digest }) };
}

/// How many lines a text has.
#[tactic(auto, using(crate::proofs::RollLines::no_lines))]
fn line_count(text: &[u8]) -> usize
    ensures { result ≡ length (lines_of text.now) }
{
    let mut rest = text;
    let mut count = 0usize;
    while let Some((_, after)) = split_line(rest) {
        rest = after;
        count += 1;
    }
    count
}

/// The title on a line, where it is greater than the one before.
fn title_below(before: Option<u64>, line: &[u8]) -> Option<u64>
    ensures { result ≡ title_below before line.now }
{
    let title = digits(line, 12)?;
    match before {
        Some(before) if title <= before => None,
        _ => Some(title),
    }
}

/// The titles on the lines of a text, or the first line at fault.
#[tactic(auto, using(crate::proofs::RollLines::no_lines, std::proofs::lemmas::Grind::common_steps))]
fn read_titles(alloc: Global, text: &[u8]) -> Result<Vec<u64>, RollError>
    requires { length (lines_of text.now) ≤ most_voters }
    ensures { MatchResult result (λ v. AreTitlesOn (lines_of text.now) v.items) (IsFaultOn (lines_of text.now)) }
{
    let mut rest = text;
    let mut before = None;
    let mut titles = Vec::new(alloc);
    while let Some((line, after)) = split_line(rest) {
        let title = match title_below(before, line) {
            Some(title) => title,
            None => return Err(RollError::Line(titles.len() as u32 + 1)),
        };
        if titles.push(title).is_err() {
            return Err(RollError::Memory);
        }
        before = Some(title);
        rest = after;
    }
    Ok(titles)
}

impl Roll {
    /// The roll in some bytes (docs/FORMATS.md, "Roll, keys and list").
    ///
    /// Errors: `Count` where there aren't 1 to `MOST_VOTERS` lines, else `Line(k)` where line k is the first at fault,
    /// `Memory` where memory ran out.
    pub fn read(alloc: Global, bytes: &[u8]) -> Result<Roll, RollError>
        ensures ok { IfOk result (IsRollOf bytes.now) }
        ensures roll { IfOk result IsRoll }

        ensures count { result ≡ Err RollError.Count → has_count (lines_of bytes.now) ≡ false }
        ensures line { (k : ℕ) → result ≡ Err (RollError.Line k) → HasBadLine bytes.now k }

        // and exactly there, unless memory ran out
        ensures count_there { result ≢ Err RollError.Memory → has_count (lines_of bytes.now) ≡ false → result ≡ Err RollError.Count }
        ensures line_there { result ≢ Err RollError.Memory → (k : ℕ) → HasBadLine bytes.now k → result ≡ Err (RollError.Line k) }
        ensures ok_there { result ≢ Err RollError.Memory → IsRollText bytes.now → IsOk result }
    {
        let lines = line_count(bytes);
        if lines < 1 || MOST_VOTERS < lines as u64 {
            return Err(RollError::Count);
        }
        match read_titles(alloc, bytes) {
            Ok(titles) => Ok(Roll {
                titles,
                digest: Sha256::digest(bytes),
            }),
            Err(e) => Err(e),
        }
    }

    /// How many voters the roll has.
    pub fn len(&self) -> u32
        ensures count { result ≡ length self.now.titles }
        ensures roll { IsRoll self.now }
    {
        self.titles.len() as u32
    }

    /// The title at a place.
    pub fn title(&self, place: u32) -> u64
        requires { place < length self.now.titles }
        ensures title { slice_get self.now.titles place ≡ Some result }
        ensures digits { result < 10 ^ 12 }
    {
        self.titles[place as usize]
    }

    /// The place of a title; `None` exactly where the roll doesn't have it.
    pub fn place(&self, title: u64) -> Option<u32>
        ensures { result ≡ position (λ t. t == title) self.now.titles }
    {
        match self.titles.binary_search(&title) {
            Ok(i) => Some(i as u32),
            Err(_) => None,
        }
    }

    /// The SHA-256 of the bytes that the roll was read from.
    pub fn digest(&self) -> [u8; 32]
        ensures { result ≡ self.now.digest }
    {
        self.digest
    }
}
