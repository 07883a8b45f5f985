//! The words of a command.
ghost use Rattle.std.specs.Prelude.{◌≡◌, ◌≤◌, IfSome, map, string_bytes};
ghost use Rattle.std.specs.Option.{option_map};
ghost use Rattle.election_tables.specs.Limits.{most_voters};
ghost use Rattle.urna_commands.specs.Words.{HasVoters, meant};
ghost use Rattle.urna_commands.specs.Command.{carga_of, certifica_of, command_of, confere_of, emite_of, ensaio_of, named_code, named_device, named_number, named_voters, reconta_of, repoe_of, totaliza_of, verifica_of, vota_of};

use election_tables::{GREATEST_SECTION, MOST_VOTERS};
use urna_base::decimal_within;
use urna_outside::Dev;

/// The names of the files of `vota`.
#[derive(Clone, Copy)]
pub(crate) struct VotaNames<'a> {
    pub tables: &'a str,
    pub roll: &'a str,
    pub keys: &'a str,
    pub out: &'a str,
}

/// The names of the files of `carga`, and the zone and number of the section.
#[derive(Clone, Copy)]
pub(crate) struct CargaNames<'a> {
    pub tables: &'a str,
    pub roll: &'a str,
    pub zone: u32,
    pub number: u32,
}

/// The names of the files of `emite`.
#[derive(Clone, Copy)]
pub(crate) struct EmiteNames<'a> {
    pub tables: &'a str,
    pub roll: &'a str,
    pub out: &'a str,
}

/// The names of the files of `confere`.
#[derive(Clone, Copy)]
pub(crate) struct ConfereNames<'a> {
    pub tables: &'a str,
    pub report: &'a str,
}

/// The names of the files of `totaliza`.
#[derive(Clone, Copy)]
pub(crate) struct TotalizaNames<'a> {
    pub tables: &'a str,
    pub list: &'a str,
}

/// The names of the files of `repoe`, and the flash that was replaced.
#[derive(Clone, Copy)]
pub(crate) struct RepoeNames<'a> {
    pub tables: &'a str,
    pub roll: &'a str,
    pub replaced: Dev,
}

/// The names of the files of `reconta`.
#[derive(Clone, Copy)]
pub(crate) struct RecontaNames<'a> {
    pub report: &'a str,
    pub rdv: &'a str,
}

/// The names of the files of `certifica`, and the code of the office.
#[derive(Clone, Copy)]
pub(crate) struct CertificaNames<'a> {
    pub tables: &'a str,
    pub list: &'a str,
    pub code: u8,
    pub out: &'a str,
}

/// The names of the files of `verifica`, and the code of the office.
#[derive(Clone, Copy)]
pub(crate) struct VerificaNames<'a> {
    pub tables: &'a str,
    pub list: &'a str,
    pub code: u8,
    pub certificate: &'a str,
}

/// The greatest number that a word may tell as the code of an office.
const GREATEST_NAMED_CODE: u64 = 99;

/// A command, with the names of its files, or its number of voters.
#[derive(Clone, Copy)]
pub(crate) enum Command<'a> {
    Vota(VotaNames<'a>),
    Carga(CargaNames<'a>),
    Emite(EmiteNames<'a>),
    Confere(ConfereNames<'a>),
    Totaliza(TotalizaNames<'a>),
    Ensaio(u32),
    Repoe(RepoeNames<'a>),
    Reconta(RecontaNames<'a>),
    Certifica(CertificaNames<'a>),
    Verifica(VerificaNames<'a>),
}

/// The command of some words: the first one says which, and the others are its names.
pub(crate) fn command_of(words: &[String]) -> Option<Command<'_>>
    ensures command { option_map meant result ≡ command_of (map string_bytes words.now) }
    ensures voters { IfSome result HasVoters }
{
    let [word, names @ ..] = words else {
        return None;
    };
    match word.as_str() {
        "vota" => vota_of(names),
        "carga" => carga_of(names),
        "emite" => emite_of(names),
        "confere" => confere_of(names),
        "totaliza" => totaliza_of(names),
        "ensaio" => ensaio_of(names),
        "repoe" => repoe_of(names),
        "reconta" => reconta_of(names),
        "certifica" => certifica_of(names),
        "verifica" => verifica_of(names),
        _ => None,
    }
}

/// TABLES ROLL KEYS OUT.
fn vota_of(names: &[String]) -> Option<Command<'_>>
    ensures { option_map meant result ≡ vota_of (map string_bytes names.now) }
{
    let [tables, roll, keys, out] = names else {
        return None;
    };
    Some(Command::Vota(VotaNames {
        tables: tables.as_str(),
        roll: roll.as_str(),
        keys: keys.as_str(),
        out: out.as_str(),
    }))
}

/// TABLES ROLL ZONE SECTION.
fn carga_of(names: &[String]) -> Option<Command<'_>>
    ensures { option_map meant result ≡ carga_of (map string_bytes names.now) }
{
    let [tables, roll, zone, number] = names else {
        return None;
    };
    let zone = named_number(zone.as_str())?;
    let number = named_number(number.as_str())?;
    Some(Command::Carga(CargaNames {
        tables: tables.as_str(),
        roll: roll.as_str(),
        zone,
        number,
    }))
}

/// TABLES ROLL OUT.
fn emite_of(names: &[String]) -> Option<Command<'_>>
    ensures { option_map meant result ≡ emite_of (map string_bytes names.now) }
{
    let [tables, roll, out] = names else {
        return None;
    };
    Some(Command::Emite(EmiteNames {
        tables: tables.as_str(),
        roll: roll.as_str(),
        out: out.as_str(),
    }))
}

/// TABLES REPORT.
fn confere_of(names: &[String]) -> Option<Command<'_>>
    ensures { option_map meant result ≡ confere_of (map string_bytes names.now) }
{
    let [tables, report] = names else {
        return None;
    };
    Some(Command::Confere(ConfereNames {
        tables: tables.as_str(),
        report: report.as_str(),
    }))
}

/// TABLES LIST.
fn totaliza_of(names: &[String]) -> Option<Command<'_>>
    ensures { option_map meant result ≡ totaliza_of (map string_bytes names.now) }
{
    let [tables, list] = names else {
        return None;
    };
    Some(Command::Totaliza(TotalizaNames {
        tables: tables.as_str(),
        list: list.as_str(),
    }))
}

/// A number of voters.
fn ensaio_of(names: &[String]) -> Option<Command<'_>>
    ensures command { option_map meant result ≡ ensaio_of (map string_bytes names.now) }
    ensures voters { IfSome result HasVoters }
{
    let [voters] = names else {
        return None;
    };
    Some(Command::Ensaio(named_voters(voters.as_str())?))
}

/// TABLES ROLL, and the word of a flash.
fn repoe_of(names: &[String]) -> Option<Command<'_>>
    ensures { option_map meant result ≡ repoe_of (map string_bytes names.now) }
{
    let [tables, roll, word] = names else {
        return None;
    };
    let replaced = named_device(word.as_str())?;
    Some(Command::Repoe(RepoeNames {
        tables: tables.as_str(),
        roll: roll.as_str(),
        replaced,
    }))
}

/// REPORT RECORD.
fn reconta_of(names: &[String]) -> Option<Command<'_>>
    ensures { option_map meant result ≡ reconta_of (map string_bytes names.now) }
{
    let [report, rdv] = names else {
        return None;
    };
    Some(Command::Reconta(RecontaNames {
        report: report.as_str(),
        rdv: rdv.as_str(),
    }))
}

/// TABLES LIST CODE OUT.
fn certifica_of(names: &[String]) -> Option<Command<'_>>
    ensures { option_map meant result ≡ certifica_of (map string_bytes names.now) }
{
    let [tables, list, word, out] = names else {
        return None;
    };
    let code = named_code(word.as_str())?;
    Some(Command::Certifica(CertificaNames {
        tables: tables.as_str(),
        list: list.as_str(),
        code,
        out: out.as_str(),
    }))
}

/// TABLES LIST CODE FILE.
fn verifica_of(names: &[String]) -> Option<Command<'_>>
    ensures { option_map meant result ≡ verifica_of (map string_bytes names.now) }
{
    let [tables, list, word, certificate] = names else {
        return None;
    };
    let code = named_code(word.as_str())?;
    Some(Command::Verifica(VerificaNames {
        tables: tables.as_str(),
        list: list.as_str(),
        code,
        certificate: certificate.as_str(),
    }))
}

/// The code of an office: a decimal from 1 to `GREATEST_NAMED_CODE`. Whether an office has it is up to the tables.
fn named_code(word: &str) -> Option<u8>
    ensures { result ≡ named_code word.now }
{
    let number = decimal_within(word.as_bytes(), 1, GREATEST_NAMED_CODE)?;
    Some(number as u8)
}

/// A flash: `interna` or `externa`.
fn named_device(word: &str) -> Option<Dev>
    ensures { result ≡ named_device word.now }
{
    match word {
        "interna" => Some(Dev::Internal),
        "externa" => Some(Dev::External),
        _ => None,
    }
}

/// A number of voters: a decimal from 1 to `MOST_VOTERS`.
fn named_voters(word: &str) -> Option<u32>
    ensures voters { result ≡ named_voters word.now }
    ensures range { IfSome result (λ n. (1 ≤ n) × (n ≤ most_voters)) }
{
    let number = decimal_within(word.as_bytes(), 1, MOST_VOTERS)?;
    Some(number as u32)
}

/// A zone or the number of a section: a decimal from 1 to `GREATEST_SECTION`.
fn named_number(word: &str) -> Option<u32>
    ensures { result ≡ named_number word.now }
{
    let number = decimal_within(word.as_bytes(), 1, GREATEST_SECTION)?;
    Some(number as u32)
}
