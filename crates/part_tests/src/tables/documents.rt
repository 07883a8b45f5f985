//! Documents of tables, with the panels that the rules of docs/FORMATS.md give them, found by hand.

use election_tables::Kind;

/// A panel: the code of its office, its digits, how it is decided, its seats, and of each candidate, rising, the number, the birth
/// and the name.
pub(super) type PanelRow = (u8, u8, Kind, u32, &'static [(u32, u32, &'static str)]);

/// A good document. Its offices have numbers of 5, 2 and 3 digits, and its lists don't rise.
pub(crate) const GOOD: &str = r#"processo = 7
data = 20261004
turno = 1
cargo = [
  {codigo = 13, regra = "proporcional", cadeiras = 5},
  {codigo = 11, regra = "absoluta", cadeiras = 1},
  {codigo = 5, regra = "simples", cadeiras = 1},
]
partido = [{numero = 45, nome = "PB"}, {numero = 13, nome = "PA"}]
candidato = [
  {cargo = 13, numero = 45001, nascimento = 19650520, nome = "BRUNO"},
  {cargo = 11, numero = 45, nascimento = 19751212, nome = "DAVI"},
  {cargo = 13, numero = 13001, nascimento = 19700101, nome = "ANA"},
  {cargo = 11, numero = 13, nascimento = 19600303, nome = "CARLA"},
  {cargo = 5, numero = 451, nascimento = 19500101, nome = "EVA"},
]
secao = [{zona = 2, secao = 1, eleitores = 3}, {zona = 1, secao = 42, eleitores = 600}]
"#;

/// Its panels.
pub(super) const GOOD_PANELS: &[PanelRow] = &[
    (
        13,
        5,
        Kind::Proportional,
        5,
        &[(13001, 19700101, "ANA"), (45001, 19650520, "BRUNO")],
    ),
    (
        11,
        2,
        Kind::Absolute,
        1,
        &[(13, 19600303, "CARLA"), (45, 19751212, "DAVI")],
    ),
    (5, 3, Kind::Simple, 1, &[(451, 19500101, "EVA")]),
];

/// Other spellings of it, each as texts that stand in the place of others. No command tells the births, nor at which place a section is.
pub(super) const SPELLINGS: &[&[(&str, &str)]] = &[
    &[("\n", "\r\n")],
    &[(" = ", "=")],
    &[("{", "{ "), ("}", " }"), (",", " ,")],
    &[("{", "{\n# an entry\n"), ("}", ",\n}")],
    &[
        ("processo", r#""processo""#),
        ("nome", "'nome'"),
        ("zona", r#""z\u006Fna""#),
    ],
    &[
        ("processo = 7", "processo = 0x7"),
        ("20261004", "20_261_004"),
        ("turno = 1", "turno = +1"),
    ],
    &[
        ("codigo = 13", "codigo = 0b1101"),
        ("cadeiras = 5", "cadeiras = 0o5"),
        ("= 600", "= 0x258"),
    ],
    &[
        (r#""BRUNO""#, r#""""BRUNO""""#),
        (r#""DAVI""#, "'''DAVI'''"),
        (r#""ANA""#, "'ANA'"),
    ],
    &[
        (r#""CARLA""#, "\"\"\"\nCARLA\"\"\""),
        (r#""EVA""#, "\"\"\"\\\n   E\\\n   VA\"\"\""),
        (r#""PA""#, r#""\u0050\x41""#),
    ],
    &[
        ("cargo = 11,", r#""cargo" = 0xB,"#),
        ("45001", "45_001"),
        ("19500101", "19_500_101"),
    ],
    &[(GOOD, HEADERS)],
];

/// The good document by headers, with its parties, candidates and sections in another order.
const HEADERS: &str = r#"
turno = 1
data = 20261004
processo = 7

[[secao]]
eleitores = 600
secao = 42
zona = 1

[[candidato]] # Eva
nome = "EVA"
nascimento = 19500101
numero = 451
cargo = 5

[[candidato]]
cargo = 11
numero = 13
nascimento = 19600303
nome = "CARLA"

[[candidato]]
cargo = 11
numero = 45
nascimento = 19751212
nome = "DAVI"

[[cargo]]
codigo = 13
regra = "proporcional"
cadeiras = 5

[["candidato"]]
cargo = 13
numero = 13001
nascimento = 19700101
nome = "ANA"

[[cargo]]
codigo = 11
regra = "absoluta"
cadeiras = 1

[[candidato]]
cargo = 13
numero = 45001
nascimento = 19650520
nome = "BRUNO"

[[partido]]
numero = 13
nome = "PA"

[[cargo]]
cadeiras = 1
regra = "simples"
codigo = 5

[[partido]]
numero = 45
nome = "PB"

[[secao]]
eleitores = 3
secao = 1
zona = 2
"#;

/// A document with every office, and a candidate of party 20 in each.
const EVERY_OFFICE: &str = r#"
processo = 99999
data = 20261004
turno = 2
partido = [{numero = 20, nome = "P"}]
secao = [{zona = 1, secao = 1, eleitores = 1}]
cargo = [
  {codigo = 6, regra = "proporcional", cadeiras = 70},
  {codigo = 1, regra = "absoluta", cadeiras = 1},
  {codigo = 13, regra = "proporcional", cadeiras = 55},
  {codigo = 5, regra = "simples", cadeiras = 1},
  {codigo = 8, regra = "proporcional", cadeiras = 24},
  {codigo = 3, regra = "simples", cadeiras = 1},
  {codigo = 7, regra = "proporcional", cadeiras = 94},
  {codigo = 11, regra = "absoluta", cadeiras = 1},
]
candidato = [
  {cargo = 1, numero = 20, nascimento = 19500101, nome = "UM"},
  {cargo = 3, numero = 20, nascimento = 19500103, nome = "TRES"},
  {cargo = 5, numero = 205, nascimento = 19500105, nome = "CINCO"},
  {cargo = 6, numero = 2006, nascimento = 19500106, nome = "SEIS"},
  {cargo = 7, numero = 20007, nascimento = 19500107, nome = "SETE"},
  {cargo = 8, numero = 20008, nascimento = 19500108, nome = "OITO"},
  {cargo = 11, numero = 20, nascimento = 19500111, nome = "ONZE"},
  {cargo = 13, numero = 20013, nascimento = 19500113, nome = "TREZE"},
]
"#;

/// The panels of that document.
const EVERY_PANEL: &[PanelRow] = &[
    (6, 4, Kind::Proportional, 70, &[(2006, 19500106, "SEIS")]),
    (1, 2, Kind::Absolute, 1, &[(20, 19500101, "UM")]),
    (13, 5, Kind::Proportional, 55, &[(20013, 19500113, "TREZE")]),
    (5, 3, Kind::Simple, 1, &[(205, 19500105, "CINCO")]),
    (8, 5, Kind::Proportional, 24, &[(20008, 19500108, "OITO")]),
    (3, 2, Kind::Simple, 1, &[(20, 19500103, "TRES")]),
    (7, 5, Kind::Proportional, 94, &[(20007, 19500107, "SETE")]),
    (11, 2, Kind::Absolute, 1, &[(20, 19500111, "ONZE")]),
];

/// Documents and their panels.
pub(super) const DOCUMENTS: &[(&str, &[PanelRow])] = &[
    (GOOD, GOOD_PANELS),
    (EVERY_OFFICE, EVERY_PANEL),
];
