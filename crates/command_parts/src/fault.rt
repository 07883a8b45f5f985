//! The line that tells why a command stops.
ghost use Rattle.std.specs.Prelude.{◌≡◌, ◌++◌, ◌≤◌, length, option_map};
ghost use Rattle.std.specs.Fmt.{decimal};
ghost use Rattle.command_parts.specs.FaultLines.{TellsLine, device_word, doc_word, error_text, fault_line};

use crate::error::{CommandError, Doc};
use urna_base::LineBuffer;
use urna_outside::{Dev, Machine, show_line};

/// Shows the line of a fault, where there is one. A fault of the display leaves it so.
pub fn tell_fault<M: Machine>(machine: &mut M, line: Option<LineBuffer>)
    ensures { TellsLine line (M.told machine.old) (M.told machine.new) }
{
    let Some(line) = line else {
        return;
    };
    let _shown = show_line(machine, line.as_bytes());
}

/// The line of an error, with its line feed.
pub fn error_line(error: CommandError) -> Option<LineBuffer>
    ensures { result ≡ option_map fault_line (error_text error) }
{
    match error {
        CommandError::Memory => None,
        CommandError::Cabinet => None,
        CommandError::Usage => Some(bare_line(b"USO")),
        CommandError::TablesNotToml => Some(bare_line(b"TABELAS TOML")),
        CommandError::TablesRule(rule) => Some(numbered_line(b"TABELAS REGRA ", u64::from(rule))),
        CommandError::RollCount => Some(bare_line(b"ROL CONTAGEM")),
        CommandError::RollLine(line) => Some(numbered_line(b"ROL LINHA ", u64::from(line))),
        CommandError::Line(line) => Some(numbered_line(b"LINHA ", u64::from(line))),
        CommandError::RecordLine(line) => Some(numbered_line(b"REGISTRO LINHA ", u64::from(line))),
        CommandError::CertificateLine(line) => {
            Some(numbered_line(b"CERTIFICADO LINHA ", u64::from(line)))
        }
        CommandError::TooLong(doc) => Some(worded_line(b"TAMANHO ", doc_word(doc))),
        CommandError::Missing(doc) => Some(worded_line(b"FALTA ", doc_word(doc))),
        CommandError::Foreign(dev) => Some(worded_line(b"OUTRA CARGA ", device_word(dev))),
        CommandError::NoImage => Some(bare_line(b"SEM IMAGEM")),
        CommandError::Busy(dev) => Some(worded_line(b"EM USO ", device_word(dev))),
    }
}

fn doc_word(doc: Doc) -> &'static [u8]
    ensures word { result.now ≡ doc_word doc }
    ensures short { length result.now ≤ 11 }
{
    match doc {
        Doc::Tables => b"TABELAS",
        Doc::Roll => b"ROL",
        Doc::Keys => b"TECLAS",
        Doc::Report => b"BOLETIM",
        Doc::List => b"LISTA",
        Doc::Record => b"REGISTRO",
        Doc::Certificate => b"CERTIFICADO",
    }
}

/// How a line names a flash.
pub fn device_word(dev: Dev) -> &'static [u8]
    ensures word { result.now ≡ device_word dev }
    ensures short { length result.now ≤ 7 }
{
    match dev {
        Dev::Internal => b"INTERNA",
        Dev::External => b"EXTERNA",
    }
}

/// The line of a fault without more. The caller owes that the text has at most 20 bytes.
pub fn bare_line(text: &[u8]) -> LineBuffer
    requires { length text.now ≤ 20 }
    ensures { result ≡ fault_line text.now }
{
    let mut line = LineBuffer::new();
    line.push_text(b"ERRO ");
    line.push_text(text);
    line.push_text(b"\n");
    line
}

/// A fault and a number.
fn numbered_line(text: &[u8], n: u64) -> LineBuffer
    requires { length text.now ≤ 20 }
    ensures { result ≡ fault_line (text.now ++ decimal n) }
{
    let mut line = LineBuffer::new();
    line.push_text(b"ERRO ");
    line.push_numbered(text, n);
    line.push_text(b"\n");
    line
}

/// The line of a fault and a word. The caller owes that the text has at most 20 bytes and the word at most 11.
pub fn worded_line(text: &[u8], word: &[u8]) -> LineBuffer
    requires text { length text.now ≤ 20 }
    requires word { length word.now ≤ 11 }
    ensures { result ≡ fault_line (text.now ++ word.now) }
{
    let mut line = LineBuffer::new();
    line.push_text(b"ERRO ");
    line.push_text(text);
    line.push_text(word);
    line.push_text(b"\n");
    line
}
