//! The list of the names of reports (docs/FORMATS.md, "List").
ghost use Rattle.std.specs.Prelude.{◌≡◌, ◌^◌, ◌<◌, ◌≤◌, [], not, ◌==◌, length, All, Some, IsTrue, IfOk, IfErr, vec_len, slice_index_or};
ghost use Rattle.std.specs.List.{list_all};
ghost use Rattle.std.specs.Result.{OnOk};
ghost use Rattle.std.specs.Str.{is_utf8};
ghost use Rattle.urna_base.specs.Lines.{lines_of};
ghost use Rattle.key_script.specs.Names.{most_names, is_name, are_names, names_of, first_bad_name};
ghost use Rattle.key_script.specs.Starts.{starts_of};

use crate::text::LineError;
use arrayvec::ArrayVec;
use std::marker::Model;
use urna_base::split_line;

/// The most names of a list.
const MOST_NAMES: usize = 4_096;

/// The most bytes of a file's name.
const LONGEST_FILE_NAME: usize = 255;

/// Where the lines of a list begin: noted once, so that no name is looked for from the front.
type Starts = ArrayVec<u32, MOST_NAMES>;

/// A list of names of files. A contract sees it as the list of its lines, each of them the bytes of a name.
#[derive(Drop)]
pub struct Names {
    text: Vec<u8>,
    starts: Starts,
}

impl Model for Names {
    ghost use Rattle.std.specs.Prelude.{◌≡◌, ℕ, List, IsTrue};
    ghost use Rattle.urna_base.specs.Lines.{lines_of};
    ghost use Rattle.key_script.specs.Names.{are_names};
    ghost use Rattle.key_script.specs.Starts.{starts_of};

    ghost Value = { List (List ℕ) };

    ghost view = { λ n. lines_of n.text.items };

    ghost invariant = { λ n. IsTrue (are_names (lines_of n.text.items)) × (n.starts.items ≡ starts_of 0 (lines_of n.text.items)) };
}

impl Names {
    /// The names of a text, or the number from 1 of its first line outside the form: a line that is no name, or line 4,097
    /// (docs/FORMATS.md, "List"). It takes no memory. The caller owes that the text is shorter than 2^31 bytes.
    pub fn read(bytes: Vec<u8>) -> Result<Names, LineError>
        requires { vec_len bytes < 2 ^ 31 }
        ensures names { IfOk result (λ names. names_of bytes.items ≡ Some names) }
        ensures fault { IfErr result (λ error. first_bad_name bytes.items ≡ Some error.line) }
    {
        let starts = line_starts(&bytes)?;
        Ok(Names {
            text: bytes,
            starts,
        })
    }

    /// How many names there are: at most 4,096.
    pub fn len(&self) -> u32
        ensures count { result ≡ length self.now }
        ensures few { length self.now ≤ most_names }
        ensures names { All (λ name. IsTrue (is_name name)) self.now }
    {
        self.starts.len() as u32
    }

    /// The name at a place from 0, of 1 to 255 bytes, none of them zero. The caller owes that the place is below `len`.
    pub fn name(&self, i: u32) -> &str
        requires { i < length self.now }
        ensures line { result.now ≡ slice_index_or self.now i [] }
        ensures name { IsTrue (is_name result.now) }
    {
        str::from_utf8(self.line(i)).unwrap()
    }

    /// The bytes of a name.
    fn line(&self, i: u32) -> &[u8]
        requires { i < length self.now }
        ensures line { result.now ≡ slice_index_or self.now i [] }
        ensures name { IsTrue (is_name result.now) }
    {
        let start = self.starts[i as usize] as usize;
        first_line(&self.text[start..])
    }
}

/// Where the lines begin, or the first line outside the form.
fn line_starts(text: &[u8]) -> Result<Starts, LineError>
    requires { length text.now < 2 ^ 31 }
    ensures starts { IfOk result (λ starts. starts.items ≡ starts_of 0 (lines_of text.now)) }
    ensures names { OnOk result (IsTrue (are_names (lines_of text.now))) }
    ensures fault { IfErr result (λ error. first_bad_name text.now ≡ Some error.line) }
{
    let mut starts = Starts::new();
    let mut rest = text;
    let mut start = 0;
    while let Some((line, others)) = split_line(rest) {
        if starts.is_full() || !is_name(line) {
            return Err(LineError {
                line: starts.len() as u32 + 1,
            });
        }
        starts.push(start);
        start += line.len() as u32 + 1;
        rest = others;
    }
    Ok(starts)
}

/// The first line of a text that isn't empty.
fn first_line(text: &[u8]) -> &[u8]
    requires { 0 < length text.now }
    ensures { result.now ≡ slice_index_or (lines_of text.now) 0 [] }
{
    let (line, _) = split_line(text).unwrap();
    line
}

/// Whether a line is a name.
#[tactic(auto, unfolding(crate::specs::Names::is_name))]
fn is_name(line: &[u8]) -> bool
    ensures { result ≡ is_name line.now }
{
    (1 <= line.len() && line.len() <= LONGEST_FILE_NAME) && (has_no_zero(line) && is_utf8(line))
}

/// Whether no byte is zero.
fn has_no_zero(line: &[u8]) -> bool
    ensures { result ≡ list_all (λ c. not (c == 0)) line.now }
{
    line.iter().all(|byte| *byte != 0)
}

/// Whether bytes are UTF-8.
fn is_utf8(bytes: &[u8]) -> bool
    ensures { result ≡ is_utf8 bytes.now }
{
    str::from_utf8(bytes).is_ok()
}
