//! Numbers as digits, dates and moments, big-endian numbers, lines, words, and the bytes of a shown line: the layer under
//! every format. A crate above takes a text apart by `split_line`, `split_piece`, `after`, `cut_at` and `first_place`,
//! reads by `digits`, `decimal` and `decimal_within`, prints by `put_digits`, `put_decimal`, `put_numbered`, `put_line`, `LineBuffer`,
//! `number_line` and `two_number_line`, takes the memory of a buffer by `zeros`, asks `is_zero` of bytes, and cites `specs/Digits.antt` (what
//! digits mean), `specs/Moment.antt` (dates and moments), `specs/Lines.antt` (the lines of a text, a text of lines, and
//! lines of words and numbers) and `specs/Words.antt` (what follows a word, a cut, the pieces of a text, and texts joined
//! by spaces). That printing and reading undo each other is in `laws`.
#![tactic(auto)]

mod be;
mod buffer;
pub mod laws;
mod line;
mod lines;
mod memory;
mod moment;
mod print;
mod read;
mod words;

pub use be::{be32, be64, put_be32, put_be64};
pub use buffer::{is_zero, zeros};
pub use line::{LineBuffer, number_line, two_number_line, word_line};
pub use lines::split_line;
pub use memory::Memory;
pub use moment::{date_ok, moment_ok};
pub use print::{decimal_into, put_decimal, put_digits, put_line, put_numbered};
pub use read::{decimal, decimal_within, digits};
pub use words::{after, cut_at, first_place, split_piece};
