ghost use Rattle.std.specs.Prelude.{◌≡◌, ◌≤◌, ◌<◌, ◌^◌, ◌∷◌, ◌++◌, [], codes, length};
ghost use Rattle.std.specs.Fmt.{decimal};
ghost use Rattle.urna_base.specs.Digits.{padded};
ghost use Rattle.urna_base.specs.Lines.{two_number_line};
ghost use Rattle.station.specs.Text.{IsLine, line_text, poll_text, title_text};

use election_tables::Tables;
use turnout::Phase;
use urna_base::{LineBuffer, number_line, two_number_line, word_line};
use vote_kinds::{Choice, Field};
use voter_term::screen_line;

/// The two reports of counts.
#[derive(Clone, Copy, Debug, PartialEq, Eq)]
pub(crate) enum Title {
    Zeresima,
    Boletim,
}

/// A line of the display (docs/FORMATS.md, "Shown texts"), but for the lines of a report of counts.
#[derive(Clone, Copy, Debug, PartialEq, Eq)]
pub(crate) enum Line {
    /// Where the poll stands, and how many came.
    Poll {
        phase: Phase,
        came: u32,
    },
    /// A key of the clerk is refused, with the number of the reason.
    Refused(u8),
    /// The voter of this title is identified.
    Voter(u64),
    Released,
    Canceled,
    Suspended,
    /// The ballot line of this number, from 1, stands, with its office's code.
    Ballot {
        number: u32,
        code: u8,
    },
    /// The field of a panel, counted from 0, and the choice of the line before, if that is of the same panel.
    Screen {
        panel: u32,
        before: Option<Choice>,
        field: Field,
    },
    /// The poll was opened at this moment.
    Opened(u64),
    /// The visit of a voter who came has ended.
    Ended,
    /// The poll was sealed at this moment, and so many came.
    Sealed {
        closed: u64,
        came: u32,
    },
}

impl Title {
    /// The title's line, with its line feed.
    pub(crate) fn text(self) -> &'static [u8]
        ensures { result.now ≡ title_text self }
    {
        match self {
            Title::Zeresima => b"ZERESIMA\n",
            Title::Boletim => b"BOLETIM\n",
        }
    }
}

impl Line {
    /// The line's bytes, with its line feed.
    ///
    /// The caller owes that its numbers have the digits of their formats, and that a screen is that of a panel of the tables with no
    /// more digits than its office.
    #[tactic(auto, using(urna_base::proofs::DecimalLaws::line_lengths))]
    pub(crate) fn text(self, tables: &Tables) -> LineBuffer
        requires { IsLine tables.now self }
        ensures { result ≡ line_text tables.now self }
    {
        match self {
            Line::Poll { phase, came } => number_line(poll_word(phase), u64::from(came)),
            Line::Refused(number) => number_line(b"RECUSA ", u64::from(number)),
            Line::Voter(title) => padded_line(b"ELEITOR ", title, 12),
            Line::Released => word_line(b"LIBERADO"),
            Line::Canceled => word_line(b"CANCELADO"),
            Line::Suspended => word_line(b"SUSPENSO"),
            Line::Ballot { number, code } => ballot_text(number, code),
            Line::Screen {
                panel,
                before,
                field,
            } => screen_line(tables, panel, before, field),
            Line::Opened(moment) => padded_line(b"ABERTA ", moment, 14),
            Line::Ended => word_line(b"FIM"),
            Line::Sealed { closed, came } => sealed_text(closed, came),
        }
    }
}

fn poll_word(phase: Phase) -> &'static [u8]
    ensures word { result.now ≡ poll_text phase }
    ensures short { length result.now ≤ 13 }
{
    match phase {
        Phase::Ready => b"URNA PRONTA ",
        Phase::Polling { .. } => b"URNA ABERTA ",
        Phase::Sealed { .. } => b"URNA LACRADA ",
    }
}

/// A word and a number of so many digits.
#[tactic(auto, using(urna_base::proofs::DecimalLaws::line_lengths))]
fn padded_line(word: &[u8], n: u64, digits: u32) -> LineBuffer
    requires word { length word.now ≤ 20 }
    requires some { 1 ≤ digits }
    requires few { digits ≤ 18 }
    requires value { n < 10 ^ digits }
    ensures { result ≡ word.now ++ padded digits n ++ 10 ∷ [] }
{
    let mut line = LineBuffer::new();
    line.push_text(word);
    line.push_digits(n, digits);
    line.push_text(b"\n");
    line
}

fn ballot_text(number: u32, code: u8) -> LineBuffer
    ensures { result ≡ two_number_line (codes "VOTO ") number (codes " CARGO ") code }
{
    two_number_line(b"VOTO ", u64::from(number), b" CARGO ", u64::from(code))
}

#[tactic(auto, using(urna_base::proofs::DecimalLaws::line_lengths))]
fn sealed_text(closed: u64, came: u32) -> LineBuffer
    requires { closed < 10 ^ 14 }
    ensures { result ≡ codes "ENCERRADA " ++ padded 14 closed ++ codes " " ++ decimal came ++ 10 ∷ [] }
{
    let mut line = LineBuffer::new();
    line.push_text(b"ENCERRADA ");
    line.push_digits(closed, 14);
    line.push_numbered(b" ", u64::from(came));
    line.push_text(b"\n");
    line
}
