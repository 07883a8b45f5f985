//! Field texts, with what the rules of docs/FORMATS.md ("Report text") make of them, found by hand.

/// Three voters, who all came: a vote for candidate 13001, a party vote and a blank one; then one for candidate 13, one for
/// candidate 45 and a null one.
pub(crate) const TWO_OFFICES: &str =
    "ORIG:VOTA PROC:7 DTPL:20261004 TURN:1 ZONA:1 SECA:42 APTO:3 COMP:3 FALT:0 \
     DTAB:20261004 HRAB:080000 DTFC:20261004 HRFC:170000 \
     CARG:13 TIPO:1 PART:13 13001:1 LEGP:0 TOTP:1 PART:45 LEGP:1 TOTP:1 APTA:3 NOMI:1 LEGC:1 BRAN:1 NULO:0 TOTC:3 \
     CARG:11 TIPO:0 13:1 45:1 APTA:3 NOMI:2 BRAN:0 NULO:1 TOTC:3";

/// One voter, who came.
const ONE_OFFICE: &str =
    "ORIG:VOTA PROC:7 DTPL:20261004 TURN:1 ZONA:1 SECA:42 APTO:1 COMP:1 FALT:0 \
     DTAB:20261004 HRAB:080000 DTFC:20261004 HRFC:170000 \
     CARG:11 TIPO:0 13:1 APTA:1 NOMI:1 BRAN:0 NULO:0 TOTC:1";

/// Every office, and numbers at the ends of their ranges.
const EIGHT_OFFICES: &str =
    "ORIG:VOTA PROC:99999 DTPL:99991231 TURN:2 ZONA:9999 SECA:9999 APTO:9999 COMP:1 FALT:9998 \
     DTAB:10000101 HRAB:000000 DTFC:10000101 HRFC:235959 \
     CARG:1 TIPO:0 99:1 APTA:9999 NOMI:1 BRAN:0 NULO:0 TOTC:1 \
     CARG:3 TIPO:0 APTA:9999 NOMI:0 BRAN:1 NULO:0 TOTC:1 \
     CARG:5 TIPO:0 100:1 APTA:9999 NOMI:1 BRAN:0 NULO:0 TOTC:1 \
     CARG:6 TIPO:1 PART:10 1000:1 LEGP:0 TOTP:1 APTA:9999 NOMI:1 LEGC:0 BRAN:0 NULO:0 TOTC:1 \
     CARG:7 TIPO:1 PART:99 LEGP:1 TOTP:1 APTA:9999 NOMI:0 LEGC:1 BRAN:0 NULO:0 TOTC:1 \
     CARG:8 TIPO:1 APTA:9999 NOMI:0 LEGC:0 BRAN:0 NULO:1 TOTC:1 \
     CARG:11 TIPO:0 10:1 APTA:9999 NOMI:1 BRAN:0 NULO:0 TOTC:1 \
     CARG:13 TIPO:1 PART:99 99999:1 LEGP:0 TOTP:1 APTA:9999 NOMI:1 LEGC:0 BRAN:0 NULO:0 TOTC:1";

/// Texts of reports.
pub(super) const GOOD: &[&str] = &[
    TWO_OFFICES,
    ONE_OFFICE,
    EIGHT_OFFICES,
    // Nobody came, closing is the moment of opening, and the day is one that its month lacks.
    "ORIG:VOTA PROC:1 DTPL:10000101 TURN:1 ZONA:1 SECA:1 APTO:0 COMP:0 FALT:0 \
     DTAB:20260231 HRAB:235959 DTFC:20260231 HRFC:235959 \
     CARG:1 TIPO:0 APTA:0 NOMI:0 BRAN:0 NULO:0 TOTC:0 \
     CARG:6 TIPO:1 APTA:0 NOMI:0 LEGC:0 BRAN:0 NULO:0 TOTC:0",
    // As many votes as there may be, and a day from noon to the morning after.
    "ORIG:VOTA PROC:7 DTPL:20261004 TURN:1 ZONA:1 SECA:42 APTO:9999 COMP:9999 FALT:0 \
     DTAB:20261004 HRAB:120000 DTFC:20261005 HRFC:000000 \
     CARG:11 TIPO:0 45:9999 APTA:9999 NOMI:9999 BRAN:0 NULO:0 TOTC:9999 \
     CARG:13 TIPO:1 PART:45 LEGP:9999 TOTP:9999 APTA:9999 NOMI:0 LEGC:9999 BRAN:0 NULO:0 TOTC:9999",
    // Parties with candidates alone, with party votes alone and with both, in an office of four digits and in one of five.
    "ORIG:VOTA PROC:7 DTPL:20261004 TURN:1 ZONA:1 SECA:42 APTO:20 COMP:12 FALT:8 \
     DTAB:20261004 HRAB:080000 DTFC:20261004 HRFC:170000 \
     CARG:7 TIPO:1 PART:10 10000:2 10999:1 LEGP:0 TOTP:3 PART:13 LEGP:4 TOTP:4 PART:99 99999:1 LEGP:2 TOTP:3 APTA:20 NOMI:4 LEGC:6 BRAN:1 NULO:1 TOTC:12 \
     CARG:6 TIPO:1 PART:11 LEGP:1 TOTP:1 PART:12 1200:1 1299:2 LEGP:3 TOTP:6 PART:13 1399:4 LEGP:0 TOTP:4 APTA:20 NOMI:7 LEGC:4 BRAN:1 NULO:0 TOTC:12",
];

/// A piece of the text of two offices, another in its place, and the field that is at fault then. No part of a file could have such a text:
/// a field has no byte, or one that isn't of the characters `0x21` to `0x7E`.
pub(super) const NO_PART: &[(&str, &str, u32)] = &[
    ("TIPO:0", "TIPO:não", 30),
    (TWO_OFFICES, "", 1),
    (TWO_OFFICES, " ", 1),
    ("ORIG", " ORIG", 1),
    ("VOTA ", "VOTA  ", 2),
    (" CARG:13", "  CARG:13", 14),
    (" 13001", "  13001", 17),
    ("NULO:1 TOTC:3", "NULO:1 TOTC:3 ", 38),
    ("NULO:1 TOTC:3", "NULO:1 TOTC:3\n", 37),
    ("ORIG", "\nORIG", 1),
];
