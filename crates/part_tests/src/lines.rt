//! A line of five pushes, as the layers above `urna_base` write them.
ghost use Rattle.std.specs.Prelude.{◌≡◌, ◌^◌, ◌<◌, [], ◌∷◌, ◌++◌, codes};
ghost use Rattle.std.specs.Fmt.{decimal};
ghost use Rattle.urna_base.specs.Digits.{padded};

use urna_base::LineBuffer;

/// The line that tells the moment of a seal, with its 14 digits, and how many came.
///
/// The caller owes that the moment is below 10^14.
#[tactic(auto, using(urna_base::proofs::DecimalLaws::line_lengths))]
pub fn sealed_line(moment: u64, came: u32) -> LineBuffer
    requires { moment < 10 ^ 14 }
    ensures { result ≡ codes "ENCERRADA " ++ padded 14 moment ++ codes " " ++ decimal came ++ 10 ∷ [] }
{
    let mut line = LineBuffer::new();
    line.push_text(b"ENCERRADA ");
    line.push_digits(moment, 14);
    line.push_text(b" ");
    line.push_decimal(u64::from(came));
    line.push_text(b"\n");
    line
}
