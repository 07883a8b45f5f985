ghost use Rattle.std.specs.Prelude.{◌≡◌, ◌+◌, ◌^◌, ◌<◌, ◌≤◌, ℕ, List, [], ◌++◌, length, take};
ghost use Rattle.std.specs.Fmt.{decimal};
ghost use Rattle.urna_base.specs.Digits.{padded};
ghost use Rattle.urna_base.specs.Lines.{number_line, two_number_line, word_line};

use crate::print::padded_digits;
use itoa::Buffer;
use std::marker::Model;

/// The longest shown line, in bytes, its line feed included.
const LINE_MAX: usize = 128;

/// The bytes of a line that is shown, of which there are at most 128. It takes no memory. A contract sees the list of
/// the bytes that were pushed.
#[derive(Drop)]
pub struct LineBuffer {
    bytes: [u8; LINE_MAX],
    count: usize,
}

impl Model for LineBuffer {
    ghost Value = { List ℕ };

    ghost view = { λ s. take s.count s.bytes };

    ghost invariant = { λ s. s.count ≤ 128 };
}

impl Default for LineBuffer {
    fn default() -> LineBuffer {
        LineBuffer::new()
    }
}

impl LineBuffer {
    /// The empty line.
    pub fn new() -> LineBuffer
        ensures { result ≡ [] }
    {
        LineBuffer {
            bytes: [0; LINE_MAX],
            count: 0,
        }
    }

    /// The bytes that were pushed, in order.
    pub fn as_bytes(&self) -> &[u8]
        ensures bytes { result.now ≡ self.now }
        ensures short { length self.now ≤ 128 }
    {
        &self.bytes[..self.count]
    }

    /// Appends `text`. The caller owes that it fits.
    pub fn push_text(&mut self, text: &[u8])
        requires { length self.old + length text.now ≤ 128 }
        ensures { self.new ≡ self.old ++ text.now }
    {
        let end = self.count + text.len();
        self.bytes[self.count..end].copy_from_slice(text);
        self.count = end;
    }

    /// Appends the shortest digits of `value`. The caller owes that they fit; they are at most 20.
    pub fn push_decimal(&mut self, value: u64)
        requires { length self.old + length (decimal value) ≤ 128 }
        ensures { self.new ≡ self.old ++ decimal value }
    {
        let mut buffer = Buffer::new();
        self.push_text(buffer.format(value).as_bytes());
    }

    /// Appends a word and a number. The caller owes that there is room for the word and 20 digits, and one byte behind them.
    #[tactic(auto, using(crate::proofs::DecimalLaws::line_lengths))]
    pub fn push_numbered(&mut self, word: &[u8], number: u64)
        requires { length self.old + length word.now ≤ 107 }
        ensures text { self.new ≡ self.old ++ (word.now ++ decimal number) }
        ensures short { length self.new ≤ length self.old + length word.now + 20 }
    {
        self.push_text(word);
        self.push_decimal(number);
    }

    /// Appends `value` with exactly `n` digits, leading zeros included.
    ///
    /// The caller owes that `n` is 1 to 18, that `value` is below 10 to the `n`, and that the digits fit.
    pub fn push_digits(&mut self, value: u64, n: u32)
        requires some { 1 ≤ n }
        requires few { n ≤ 18 }
        requires value_fits { value < 10 ^ n }
        requires room { length self.old + n ≤ 128 }
        ensures { self.new ≡ self.old ++ padded n value }
    {
        let text = padded_digits(value, n);
        self.push_text(&text[..n as usize]);
    }
}

/// A line of a word alone. The caller owes that the word has at most 40 bytes.
pub fn word_line(word: &[u8]) -> LineBuffer
    requires { length word.now ≤ 40 }
    ensures { result ≡ word_line word.now }
{
    let mut line = LineBuffer::new();
    line.push_text(word);
    line.push_text(b"\n");
    line
}

/// A line of a word and a number. The caller owes that the word has at most 40 bytes.
pub fn number_line(word: &[u8], number: u64) -> LineBuffer
    requires { length word.now ≤ 40 }
    ensures { result ≡ number_line word.now number }
{
    let mut line = LineBuffer::new();
    line.push_numbered(word, number);
    line.push_text(b"\n");
    line
}

/// A line of two words, each with a number. The caller owes that each word has at most 40 bytes.
pub fn two_number_line(word: &[u8], number: u64, other_word: &[u8], other: u64) -> LineBuffer
    requires word { length word.now ≤ 40 }
    requires other_word { length other_word.now ≤ 40 }
    ensures { result ≡ two_number_line word.now number other_word.now other }
{
    let mut line = LineBuffer::new();
    line.push_numbered(word, number);
    line.push_numbered(other_word, other);
    line.push_text(b"\n");
    line
}
