//! The rows of the tests of certificates. The certificate of each contest, how another text is judged, and the substitutes follow from
//! `docs/RULES.md`, "The seats" and "The certificate": `tools/certificates.py` works them out with fractions, and knows nothing of this program.

/// A contest as `rows` tells it, the text of its certificate in the words of `docs/FORMATS.md`, and changes of this text: a piece, what
/// stands in its place, and how the changed text is judged for the contest.
pub(crate) const CERTIFICATES: &[(&str, &str, &[(&str, &str, &str)])] = &[
    (
        "5 seats, 10: 300 100 100, 11: 200 100, 12: 150, 13: 50",
        "CERT U1\nCARGO 13\nQUOCIENTE 200\n\
         PARTIDO 10 QP 2 APTOS 3 VAGAS 2\nPARTIDO 11 QP 1 APTOS 2 VAGAS 1\nPARTIDO 12 QP 0 APTOS 1 VAGAS 0\nPARTIDO 13 QP 0 APTOS 1 VAGAS 0\n\
         RODADA 1 FASE 2 VENCE 10 10:500/3 11:300/2\nRODADA 2 FASE 2 VENCE 11 11:300/2\nVAZIAS 0\nFIM\n",
        &[
            // the quotient is judged before all else
            (
                "QUOCIENTE 200\nPARTIDO 10 QP 2",
                "QUOCIENTE 201\nPARTIDO 10 QP 3",
                "quotient",
            ),
            // lines of the first phase: other numbers, of those who aren't elected left out, a missing line, one too many
            ("QP 1 APTOS 2", "QP 2 APTOS 2", "first 2"),
            (
                "APTOS 1 VAGAS 0\nPARTIDO 13",
                "APTOS 0 VAGAS 0\nPARTIDO 13",
                "first 3",
            ),
            ("APTOS 2 VAGAS 1", "APTOS 2 VAGAS 2", "first 2"),
            ("PARTIDO 12 QP 0 APTOS 1 VAGAS 0\n", "", "first 3"),
            ("PARTIDO 13 QP 0 APTOS 1 VAGAS 0\n", "", "first 4"),
            (
                "RODADA 1",
                "PARTIDO 14 QP 0 APTOS 0 VAGAS 0\nRODADA 1",
                "first 5",
            ),
            // rounds: another bloc takes the seat, the phase, an average, an eligible bloc isn't listed, one that isn't eligible is, one too many
            ("VENCE 10 10:500", "VENCE 11 10:500", "round 1"),
            ("VENCE 10 10:500", "VENCE 14 10:500", "round 1"),
            ("RODADA 2 FASE 2", "RODADA 2 FASE 3", "round 2"),
            ("10:500/3", "10:500/4", "round 1"),
            ("10:500/3", "10:499/3", "round 1"),
            (" 10:500/3 11:300/2", " 10:500/3", "round 1"),
            (" 11:300/2\nVAZIAS", "\nVAZIAS", "round 2"),
            ("11:300/2\nRODADA", "11:300/2 12:150/1\nRODADA", "round 1"),
            (
                "VAZIAS",
                "RODADA 3 FASE 3 VENCE 12 12:150/1 13:50/1\nVAZIAS",
                "round 3",
            ),
            // the end: a round is missing, or a seat told to be vacant
            ("RODADA 2 FASE 2 VENCE 11 11:300/2\n", "", "end"),
            ("VAZIAS 0", "VAZIAS 1", "end"),
            (
                "RODADA 2 FASE 2 VENCE 11 11:300/2\nVAZIAS 0",
                "VAZIAS 1",
                "end",
            ),
            // texts of no certificate
            ("CERT U1", "CERT U2", "line 1"),
            ("CARGO 13", "CARGO 3", "line 2"),
            ("CARGO 13", "CARGO 013", "line 2"),
            ("QUOCIENTE 200", "QUOCIENTE  200", "line 3"),
            ("QUOCIENTE 200", "QUOCIENTE 1000000000000000000", "line 3"),
            ("PARTIDO 11", "PARTIDO 10", "line 5"),
            ("PARTIDO 13", "PARTIDO 100", "line 7"),
            (
                "APTOS 1 VAGAS 0\nRODADA 1",
                "APTOS 1 VAGAS 4294967296\nRODADA 1",
                "line 7",
            ),
            ("RODADA 1", "FIM\nRODADA 1", "line 8"),
            ("RODADA 2", "RODADA 3", "line 9"),
            ("FASE 2 VENCE 11", "FASE 1 VENCE 11", "line 9"),
            ("10:500/3 11:300/2", "11:300/2 10:500/3", "line 8"),
            ("10:500/3", "10:500/0", "line 8"),
            ("VENCE 10 10:500", "VENCE 10  10:500", "line 8"),
            ("VAZIAS 0\n", "", "line 10"),
            ("FIM\n", "", "line 11"),
            ("FIM\n", "FIM", "line 11"),
            ("FIM\n", "FIM\n\n", "line 12"),
            ("FIM\n", "FIM\nFIM", "line 12"),
        ],
    ),
    // equal averages of equal votes
    (
        "3 seats, 10: 40 20, 11: 40 20",
        "CERT U1\nCARGO 13\nQUOCIENTE 40\nPARTIDO 10 QP 1 APTOS 2 VAGAS 1\nPARTIDO 11 QP 1 APTOS 2 VAGAS 1\n\
         RODADA 1 FASE 2 VENCE 10 10:60/2 11:60/2\nVAZIAS 0\nFIM\n",
        &[("VENCE 10", "VENCE 11", "round 1")],
    ),
    // seats of phase 3, and vacant ones
    (
        "10 seats, 10: 1 1 1 1 1 1 0 0",
        "CERT U1\nCARGO 13\nQUOCIENTE 1\nPARTIDO 10 QP 6 APTOS 6 VAGAS 6\n\
         RODADA 1 FASE 3 VENCE 10 10:6/7\nRODADA 2 FASE 3 VENCE 10 10:6/8\nVAZIAS 2\nFIM\n",
        &[
            (
                "FASE 3 VENCE 10 10:6/7",
                "FASE 2 VENCE 10 10:6/7",
                "round 1",
            ),
            (
                "VAZIAS",
                "RODADA 3 FASE 3 VENCE 10 10:6/9\nVAZIAS",
                "round 3",
            ),
            ("VAZIAS 2", "VAZIAS 1", "end"),
            (
                "RODADA 2 FASE 3 VENCE 10 10:6/8\nVAZIAS 2",
                "VAZIAS 3",
                "end",
            ),
        ],
    ),
];

/// A contest that comes to no seats, and a text that follows it as far as it can, with how it is judged.
pub(crate) const NOT_CERTIFIED: &[(&str, &str, &str)] = &[
    (
        "10 seats, 10: L3 0 0",
        "CERT U1\nCARGO 13\nQUOCIENTE 0\nVAZIAS 10\nFIM\n",
        "quotient",
    ),
    (
        "10 seats, 10: 1 1 1 1 1 1 1 1 1 1 1 1 1 1 1",
        "CERT U1\nCARGO 13\nQUOCIENTE 1\nPARTIDO 10 QP 15 APTOS 15 VAGAS 15\nVAZIAS 0\nFIM\n",
        "end",
    ),
    (
        "10 seats, 10: 1 1 1 1 1 1 1 1 1 1 1 1 1 1 1",
        "CERT U1\nCARGO 13\nQUOCIENTE 1\nPARTIDO 10 QP 15 APTOS 15 VAGAS 15\nRODADA 1 FASE 3 VENCE 10\nVAZIAS 0\nFIM\n",
        "round 1",
    ),
    // The round would be the next one, if a seat were left to it.
    (
        "10 seats, 10: 1 1 1 1 1 1 1 1 1 1 1 1 1 1 1 0",
        "CERT U1\nCARGO 13\nQUOCIENTE 1\nPARTIDO 10 QP 15 APTOS 15 VAGAS 15\nRODADA 1 FASE 3 VENCE 10 10:15/16\nVAZIAS 0\nFIM\n",
        "round 1",
    ),
];

/// A contest, and its substitutes, each as bloc, rank and number.
pub(crate) const SUBSTITUTES: &[(&str, &str)] = &[
    ("5 seats, 10: 300 100 100, 11: 200 100, 12: 150, 13: 50", ""),
    (
        "3 seats, 10: 300 100 20 20@19590101 120, 11: 100 200, 12: 30",
        " 10 1 10002 10 2 10004 10 3 10003 11 1 11001",
    ),
];
