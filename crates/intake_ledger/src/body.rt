//! What stands in the body of a ledger, place by place, and whether some bytes are one.
ghost use Rattle.std.specs.Prelude.{◌≡◌, ◌+◌, ◌*◌, ◌<◌, ◌≤◌, ◌↔◌, IsTrue, length};
ghost use Rattle.election_tables.specs.Limits.{most_sections};
ghost use Rattle.intake_ledger.specs.Body.{all_from, are_zero, has_fields, has_hash, has_marks, has_sums, has_version, hash_in, have_hashes, is_marked, is_within, marked_before, no_more_marks, number_in, rank_in, sum_in};
ghost use Rattle.intake_ledger.specs.Layout.{body_size, marked_sections, most_sums, sum_size, sums_offset};

use crate::choices::sum_count;
use crate::layout::{
    BODY_SIZE, HASH_SIZE, HASHES_OFFSET, MARKED_SECTIONS, MARKS_END, MARKS_OFFSET, NUMBER_OFFSET,
    SUM_SIZE, SUMS_OFFSET, VERSION,
};
use election_tables::Tables;
use poll_report::GREATEST_COUNT;
use urna_base::{be32, be64, is_zero};

/// How many sections have a report, as a body says it.
pub(crate) fn number_in(bytes: &[u8]) -> u32
    requires { length bytes.now ≡ body_size }
    ensures { result ≡ number_in bytes.now }
{
    let at = NUMBER_OFFSET;
    be32([bytes[at], bytes[at + 1], bytes[at + 2], bytes[at + 3]])
}

/// The sum in a place.
pub(crate) fn sum_in(bytes: &[u8], place: u32) -> u64
    requires { sums_offset + sum_size * (place + 1) ≤ length bytes.now }
    ensures { result ≡ sum_in bytes.now place }
{
    let at = SUMS_OFFSET + SUM_SIZE * place as usize;
    be64([
        bytes[at],
        bytes[at + 1],
        bytes[at + 2],
        bytes[at + 3],
        bytes[at + 4],
        bytes[at + 5],
        bytes[at + 6],
        bytes[at + 7],
    ])
}

/// Whether the section in a place has a report.
pub(crate) fn is_marked(bytes: &[u8], place: u32) -> bool
    requires size { length bytes.now ≡ body_size }
    requires place { place < marked_sections }
    ensures { result ≡ is_marked bytes.now place }
{
    (bytes[MARKS_OFFSET + (place / 8) as usize] >> (7 - place % 8)) % 2 == 1
}

/// Whether this is the hash in a place.
pub(crate) fn is_hash_at(bytes: &[u8], place: u32, hash: &[u8; HASH_SIZE]) -> bool
    requires size { length bytes.now ≡ body_size }
    requires place { place < marked_sections }
    ensures { IsTrue result ↔ (hash_in bytes.now place ≡ hash.now) }
{
    let at = HASHES_OFFSET + HASH_SIZE * place as usize;
    let kept = &bytes[at..at + HASH_SIZE];
    kept == hash.as_slice()
}

/// Whether zeros stand from one place up to another.
#[tactic(auto, using(crate::proofs::Ranges::are_zero_in))]
fn are_zero(bytes: &[u8], from: usize, end: usize) -> bool
    requires forth { from ≤ end }
    requires within { end ≤ length bytes.now }
    ensures { result ≡ are_zero from end bytes.now }
{
    is_zero(&bytes[from..end])
}

/// Whether the version stands in front, and zeros up to the number.
fn has_version(bytes: &[u8]) -> bool
    requires { length bytes.now ≡ body_size }
    ensures { result ≡ has_version bytes.now }
{
    bytes[0] == VERSION && are_zero(bytes, 1, NUMBER_OFFSET)
}

/// How many of the first so many sections have a report.
#[tactic(auto, using(crate::proofs::Marks::marked_none, crate::proofs::Marks::marked_more))]
fn marked_before(bytes: &[u8], sections: u32) -> u32
    requires size { length bytes.now ≡ body_size }
    requires few { sections ≤ most_sections }
    ensures { result ≡ marked_before sections bytes.now }
{
    let mut count = 0;
    for place in 0..sections {
        if is_marked(bytes, place) {
            count += 1;
        }
    }
    count
}

/// Whether no bit is set past the first so many sections.
#[tactic(auto, using(crate::proofs::Ranges::all_more, crate::proofs::Ranges::all_end))]
fn no_more_marks(bytes: &[u8], sections: u32) -> bool
    requires size { length bytes.now ≡ body_size }
    requires few { sections ≤ most_sections }
    ensures { result ≡ no_more_marks sections bytes.now }
{
    for place in sections..MARKED_SECTIONS {
        if is_marked(bytes, place) {
            return false;
        }
    }
    true
}

/// Whether the number is that of the set bits, with none past the first so many sections and zeros up to the hashes.
fn has_marks(bytes: &[u8], sections: u32) -> bool
    requires size { length bytes.now ≡ body_size }
    requires few { sections ≤ most_sections }
    ensures { result ≡ has_marks sections bytes.now }
{
    number_in(bytes) == marked_before(bytes, sections)
        && (no_more_marks(bytes, sections) && are_zero(bytes, MARKS_END, HASHES_OFFSET))
}

/// Whether the section in a place has a report, or zeros in the place of its hash.
fn has_hash(bytes: &[u8], place: u32) -> bool
    requires size { length bytes.now ≡ body_size }
    requires place { place < marked_sections }
    ensures { result ≡ has_hash bytes.now place }
{
    let at = HASHES_OFFSET + HASH_SIZE * place as usize;
    is_marked(bytes, place) || are_zero(bytes, at, at + HASH_SIZE)
}

/// Whether it is so of each section.
#[tactic(auto, using(crate::proofs::Ranges::all_more, crate::proofs::Ranges::all_end))]
fn have_hashes(bytes: &[u8]) -> bool
    requires { length bytes.now ≡ body_size }
    ensures { result ≡ have_hashes bytes.now }
{
    for place in 0..MARKED_SECTIONS {
        if !has_hash(bytes, place) {
            return false;
        }
    }
    true
}

/// Whether the sum in a place is no greater than a number of reports allows.
fn is_within(bytes: &[u8], place: u32, number: u32) -> bool
    requires { sums_offset + sum_size * (place + 1) ≤ length bytes.now }
    ensures { result ≡ is_within number bytes.now place }
{
    sum_in(bytes, place) <= GREATEST_COUNT * u64::from(number)
}

/// Whether so many sums are.
#[tactic(auto, using(crate::proofs::Ranges::all_more, crate::proofs::Ranges::all_end))]
fn are_within(bytes: &[u8], sums: u32, number: u32) -> bool
    requires size { length bytes.now ≡ body_size }
    requires few { sums ≤ most_sums }
    ensures { result ≡ all_from (is_within number bytes.now) 0 sums }
{
    for place in 0..sums {
        if !is_within(bytes, place, number) {
            return false;
        }
    }
    true
}

/// Whether so many sums are within the number, with zeros behind them.
fn has_sums(bytes: &[u8], sums: u32) -> bool
    requires size { length bytes.now ≡ body_size }
    requires few { sums ≤ most_sums }
    ensures { result ≡ has_sums sums bytes.now }
{
    are_within(bytes, sums, number_in(bytes))
        && are_zero(bytes, SUMS_OFFSET + SUM_SIZE * sums as usize, BODY_SIZE)
}

/// Whether each field is as it is in a body of a ledger of these tables.
#[tactic(auto, unfolding(crate::specs::Body::has_fields))]
fn has_fields(tables: &Tables, bytes: &[u8]) -> bool
    requires { length bytes.now ≡ body_size }
    ensures { result ≡ has_fields tables.now bytes.now }
{
    let sections = tables.section_count();
    let sums = sum_count(tables);
    has_version(bytes)
        && (has_marks(bytes, sections) && (have_hashes(bytes) && has_sums(bytes, sums)))
}

/// The rank of some bytes, which are the body of a ledger of these tables; `None` exactly where they are none.
pub(crate) fn rank_of(tables: &Tables, bytes: &[u8]) -> Option<u32>
    ensures { result ≡ rank_in tables.now bytes.now }
{
    if bytes.len() == BODY_SIZE && has_fields(tables, bytes) {
        Some(number_in(bytes))
    } else {
        None
    }
}
