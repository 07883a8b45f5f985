//! The words of a command.
ghost use Rattle.std.specs.Prelude.{◌≡◌, map, string_bytes};
ghost use Rattle.std.specs.Option.{option_map};
ghost use Rattle.ledger_commands.specs.Command.{abre_of, command_of, recebe_of, totais_of};
ghost use Rattle.ledger_commands.specs.Words.{meant};

/// The names of the files of `recebe`.
#[derive(Clone, Copy)]
pub(crate) struct RecebeNames<'a> {
    pub tables: &'a str,
    pub list: &'a str,
}

/// A command, with the names of its files.
#[derive(Clone, Copy)]
pub(crate) enum Command<'a> {
    Abre(&'a str),
    Recebe(RecebeNames<'a>),
    Totais(&'a str),
}

/// The command of some words: the first one says which, and the others are its names.
pub(crate) fn command_of(words: &[String]) -> Option<Command<'_>>
    ensures { option_map meant result ≡ command_of (map string_bytes words.now) }
{
    let [word, names @ ..] = words else {
        return None;
    };
    match word.as_str() {
        "abre" => abre_of(names),
        "recebe" => recebe_of(names),
        "totais" => totais_of(names),
        _ => None,
    }
}

/// TABLES.
fn abre_of(names: &[String]) -> Option<Command<'_>>
    ensures { option_map meant result ≡ abre_of (map string_bytes names.now) }
{
    let [tables] = names else {
        return None;
    };
    Some(Command::Abre(tables.as_str()))
}

/// TABLES LIST.
fn recebe_of(names: &[String]) -> Option<Command<'_>>
    ensures { option_map meant result ≡ recebe_of (map string_bytes names.now) }
{
    let [tables, list] = names else {
        return None;
    };
    Some(Command::Recebe(RecebeNames {
        tables: tables.as_str(),
        list: list.as_str(),
    }))
}

/// TABLES.
fn totais_of(names: &[String]) -> Option<Command<'_>>
    ensures { option_map meant result ≡ totais_of (map string_bytes names.now) }
{
    let [tables] = names else {
        return None;
    };
    Some(Command::Totais(tables.as_str()))
}
