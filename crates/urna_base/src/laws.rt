//! Printing and reading undo each other. Each function here does nothing: its contract is the law.
ghost use Rattle.urna_base.specs.Laws.{PaddedReadsBack, DigitsPrintBack, DecimalReadsBack, DecimalPrintsBack, Be32ReadsBack, Be64ReadsBack, Be32PrintsBack, Be64PrintsBack};

/// A number printed with `n` digits by `put_digits` is read by `digits`, and what `digits` reads prints back.
pub fn padded_round_trip()
    ensures reads { PaddedReadsBack }
    ensures prints { DigitsPrintBack }
{}

/// A number printed by `put_decimal` is read by `decimal`, and what `decimal` reads prints back.
pub fn decimal_round_trip()
    ensures reads { DecimalReadsBack }
    ensures prints { DecimalPrintsBack }
{}

/// `be32` and `put_be32` are inverse.
pub fn be32_round_trip()
    ensures reads { Be32ReadsBack }
    ensures prints { Be32PrintsBack }
{}

/// `be64` and `put_be64` are inverse.
pub fn be64_round_trip()
    ensures reads { Be64ReadsBack }
    ensures prints { Be64PrintsBack }
{}
