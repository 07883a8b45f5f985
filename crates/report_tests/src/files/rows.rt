//! Files of reports as docs/FORMATS.md ("Parts") has them. The hashes that stand here were made by another program.

/// The report of one voter.
pub(super) const ONE_PART: &str = "QRBU:1:1 VRQR:U1 \
     ORIG:VOTA PROC:7 DTPL:20261004 TURN:1 ZONA:1 SECA:42 APTO:1 COMP:1 FALT:0 \
     DTAB:20261004 HRAB:080000 DTFC:20261004 HRFC:170000 \
     CARG:11 TIPO:0 13:1 APTA:1 NOMI:1 BRAN:0 NULO:0 TOTC:1 \
     HASH:2A3D85A2BA41332ADDB47827018F3D90E29081FCDAFABFC9700AA14520F17AD1\
     99FE64DD0D6F72E8785590B0679C7D3357581BF548154C4D254619924146876C\n";

/// The report of three voters and two offices: a vote for candidate 13001, a party vote and a blank one; then one for candidate 13, one for
/// candidate 45 and a null one.
pub(crate) const REPORT: &[u8] = b"QRBU:1:1 VRQR:U1 \
     ORIG:VOTA PROC:7 DTPL:20261004 TURN:1 ZONA:1 SECA:42 APTO:3 COMP:3 FALT:0 \
     DTAB:20261004 HRAB:080000 DTFC:20261004 HRFC:170000 \
     CARG:13 TIPO:1 PART:13 13001:1 LEGP:0 TOTP:1 PART:45 LEGP:1 TOTP:1 APTA:3 NOMI:1 LEGC:1 BRAN:1 NULO:0 TOTC:3 \
     CARG:11 TIPO:0 13:1 45:1 APTA:3 NOMI:2 BRAN:0 NULO:1 TOTC:3 \
     HASH:5CEA4D84175045B78DB1BCA0CD7EC51CF887BAB15A69C651FA25BCA56FB707B8\
     3F87FFD8536B2BC3C78FFF8131F61E4229286351072C944106F0163A1A02EAD5\n";

/// The text of a part: what stands before and behind a run of letters.
pub(super) type Part<'a> = (&'a str, usize, &'a str);

/// Files whose parts are full: 1,000 bytes, or a field that doesn't fit.
pub(super) const MADE: &[&[Part<'static>]] = &[
    &[("QRBU:1:1 VRQR:U1 ", 993, " TOTC:1")],
    &[
        ("QRBU:1:2 VRQR:U1 ", 994, ""),
        ("QRBU:2:2 VRQR:U1 TOTC:1", 0, ""),
    ],
    &[("QRBU:1:1 VRQR:U1 ", 1_000, "")],
    &[
        ("QRBU:1:3 VRQR:U1 ", 1_000, ""),
        ("QRBU:2:3 VRQR:U1 ", 998, " B"),
        ("QRBU:3:3 VRQR:U1 ", 1, ""),
    ],
];
