//! What follows a word in a text, a text cut at a byte, and its pieces between spaces.
ghost use Rattle.std.specs.Prelude.{◌≡◌, ◌==◌, ◌∷◌, position, MatchOption, None, Some};
ghost use Rattle.std.specs.Option.{option_copied};
ghost use Rattle.urna_base.specs.Words.{after_word, cut_at, pieces, pieces_left};

/// What follows a word, where the text begins with it.
pub fn after<'a>(word: &[u8], text: &'a [u8]) -> Option<&'a [u8]>
    ensures { option_copied result ≡ after_word word.now text.now }
{
    text.strip_prefix(word)
}

/// What stands in front of the first such byte of a text, and what stands behind it.
pub fn cut_at(byte: u8, text: &[u8]) -> Option<(&[u8], &[u8])>
    ensures { MatchOption result (cut_at byte text.now ≡ None) (λ x. cut_at byte text.now ≡ Some (x.0.now, x.1.now)) }
{
    match first_place(byte, text) {
        Some(end) => Some((&text[..end], &text[end + 1..])),
        None => None,
    }
}

/// The first piece of a text, and what stands behind its space, if there is one.
pub fn split_piece(text: &[u8]) -> (&[u8], Option<&[u8]>)
    ensures { pieces text.now ≡ result.0.now ∷ pieces_left result.1 }
{
    match first_place(b' ', text) {
        Some(end) => (&text[..end], Some(&text[end + 1..])),
        None => (text, None),
    }
}

/// Where the first byte of this value stands in a text; `None` where there is none. It goes byte by byte (docs/DECISIONS.md, "Time").
pub fn first_place(byte: u8, text: &[u8]) -> Option<usize>
    ensures { result ≡ position (λ b. b == byte) text.now }
{
    text.iter().position(|other| *other == byte)
}
