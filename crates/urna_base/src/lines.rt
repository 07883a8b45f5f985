ghost use Rattle.std.specs.Prelude.{◌≡◌, ◌<◌, ◌↔◌, [], ◌∷◌, length, IsNone, IfSome};
ghost use Rattle.urna_base.specs.Lines.{lines_of};

use crate::words::first_place;

/// The first line of a text without its line feed, and the text after it; `None` where the text is empty.
///
/// A reader of lines calls it again on what is left, which is always shorter.
pub fn split_line(text: &[u8]) -> Option<(&[u8], &[u8])>
    ensures empty { IsNone result ↔ (text.now ≡ []) }
    ensures split { IfSome result (λ parts. lines_of text.now ≡ parts.0.now ∷ lines_of parts.1.now) }
    ensures shorter { IfSome result (λ parts. length parts.1.now < length text.now) }
{
    if text.is_empty() {
        return None;
    }
    match first_place(b'\n', text) {
        Some(end) => Some((&text[..end], &text[end + 1..])),
        None => Some((text, &[])),
    }
}
