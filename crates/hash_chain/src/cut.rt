//! The first part of some fields.
ghost use Rattle.std.specs.Prelude.{◌≡◌, ℕ, ◌<◌, ◌≤◌, ◌≢◌, ◌∷◌, length, slice_index, IfSome};
ghost use Rattle.urna_base.specs.Words.{pieces, pieces_left};
ghost use Rattle.hash_chain.specs.Cut.{cut, part_size};
ghost use Rattle.hash_chain.specs.Fault.{AreFields};

/// How many bytes the fields of a part have at most, with the spaces between them.
pub(crate) const PART_SIZE: usize = 1000;

/// The first part of a field text, and the text behind it, if any is left.
pub(crate) fn split_part(text: &[u8]) -> (&[u8], Option<&[u8]>)
    requires { AreFields (pieces text.now) }
    ensures cut { cut (pieces text.now) ≡ pieces result.0.now ∷ cut (pieces_left result.1) }
    ensures fields { IfSome result.1 (λ rest. AreFields (pieces rest.now)) }
{
    if text.len() <= PART_SIZE {
        return (text, None);
    }
    let end = last_space(text);
    (&text[..end], Some(&text[end + 1..]))
}

/// Where the last space stands that leaves a part within its size: right behind it at most. The caller owes that there is one.
fn last_space(text: &[u8]) -> usize
    requires long { part_size < length text.now }
    requires some { (k : ℕ) × (k ≤ part_size) × (slice_index text.now k ≡ 32) }
    ensures within { result ≤ part_size }
    ensures space { slice_index text.now result ≡ 32 }
    ensures last { (k : ℕ) → result < k → k ≤ part_size → slice_index text.now k ≢ 32 }
{
    let mut at = PART_SIZE;
    while text[at] != b' ' {
        at -= 1;
    }
    at
}
