//! The lines of the totals (docs/FORMATS.md, "Totals").
ghost use Rattle.std.specs.Prelude.{◌≡◌, ◌+◌, ◌<◌, ◌≤◌, ◌^◌, ◌++◌, length};
ghost use Rattle.std.specs.Fmt.{decimal};
ghost use Rattle.totals.specs.Lines.{award_line, bloc_line, candidate_line, elected_line, majority_line, office_line, section_line, total_of};

use crate::blocs::bloc_word;
use crate::votes::PanelVotes;
use election_tables::Tables;
use seat_remainders::{Award, Entry, MajorityOutcome, PartySeats};
use urna_base::{LineBuffer, number_line, two_number_line, word_line};

/// Appends a word and a number of at most 11 digits.
#[tactic(auto, using(crate::proofs::LineLaws::small_lengths))]
fn push_small(line: &mut LineBuffer, word: &[u8], number: u64)
    requires small { number < 10 ^ 11 }
    requires room { length line.old + length word.now ≤ 116 }
    ensures text { line.new ≡ line.old ++ (word.now ++ decimal number) }
    ensures short { length line.new ≤ length line.old + length word.now + 11 }
{
    line.push_text(word);
    line.push_decimal(number);
}

/// Appends a word and a number of at most 3 digits.
#[tactic(auto, using(crate::proofs::LineLaws::code_lengths))]
fn push_code(line: &mut LineBuffer, word: &[u8], code: u64)
    requires small { code < 10 ^ 3 }
    requires room { length line.old + length word.now ≤ 116 }
    ensures text { line.new ≡ line.old ++ (word.now ++ decimal code) }
    ensures short { length line.new ≤ length line.old + length word.now + 3 }
{
    line.push_text(word);
    line.push_decimal(code);
}

/// How many reports were accepted, and how many sections there are.
pub fn section_line(accepted: u32, sections: u32) -> LineBuffer
    ensures { result ≡ section_line accepted sections }
{
    two_number_line(
        b"SECOES ",
        u64::from(accepted),
        b" DE ",
        u64::from(sections),
    )
}

/// The votes of an office. The caller owes that they are fewer than 10^11, so that each number has at most 11 digits: a line has no room for
/// seven of 20.
pub fn office_line(code: u8, votes: PanelVotes) -> LineBuffer
    requires { total_of votes < 10 ^ 11 }
    ensures { result ≡ office_line code votes }
{
    let mut line = LineBuffer::new();
    push_code(&mut line, b"CARGO ", u64::from(code));
    push_small(&mut line, b" VALIDOS ", votes.valid());
    push_small(&mut line, b" NOMINAIS ", votes.nominal);
    push_small(&mut line, b" LEGENDA ", votes.party);
    push_small(&mut line, b" BRANCOS ", votes.blank);
    push_small(&mut line, b" NULOS ", votes.null_votes);
    push_small(&mut line, b" TOTAL ", votes.total());
    line.push_text(b"\n");
    line
}

/// A candidate and the votes.
pub(crate) fn candidate_line(candidate: Entry) -> LineBuffer
    ensures { result ≡ candidate_line candidate }
{
    two_number_line(
        b"CANDIDATO ",
        u64::from(candidate.number),
        b" VOTOS ",
        candidate.votes,
    )
}

/// What comes of a majority office.
pub(crate) fn majority_line(outcome: MajorityOutcome) -> LineBuffer
    ensures { result ≡ majority_line outcome }
{
    match outcome {
        MajorityOutcome::Elected(number) => number_line(b"ELEITO ", u64::from(number)),
        MajorityOutcome::Runoff(first, second) => {
            two_number_line(b"SEGUNDO TURNO ", u64::from(first), b" ", u64::from(second))
        }
        MajorityOutcome::Nobody => word_line(b"NINGUEM"),
    }
}

/// What a bloc has.
pub(crate) fn bloc_line(tables: &Tables, bloc: PartySeats) -> LineBuffer
    ensures { result ≡ bloc_line tables.now bloc }
{
    let mut line = LineBuffer::new();
    line.push_numbered(bloc_word(tables, bloc.number), u64::from(bloc.number));
    line.push_numbered(b" VOTOS ", bloc.votes);
    line.push_numbered(b" QP ", bloc.quotient);
    line.push_numbered(b" VAGAS ", u64::from(bloc.seats));
    line.push_text(b"\n");
    line
}

/// The seat of a round.
pub(crate) fn award_line(tables: &Tables, round: u32, award: Award) -> LineBuffer
    ensures { result ≡ award_line tables.now round award }
{
    let mut line = LineBuffer::new();
    line.push_numbered(b"SOBRA ", u64::from(round));
    line.push_numbered(b" FASE ", u64::from(award.phase));
    line.push_text(b" ");
    line.push_numbered(bloc_word(tables, award.party), u64::from(award.party));
    line.push_text(b"\n");
    line
}

/// One who is elected, and the votes.
pub(crate) fn elected_line(number: u32, votes: u64) -> LineBuffer
    ensures { result ≡ elected_line number votes }
{
    two_number_line(b"ELEITO ", u64::from(number), b" VOTOS ", votes)
}
