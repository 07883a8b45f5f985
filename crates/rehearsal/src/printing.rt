//! The lines of the roll and of the script.
ghost use Rattle.std.specs.Prelude.{◌≡◌, ◌++◌, [], ◌∷◌, ◌^◌, ◌<◌, ◌≤◌, map, OnOk};
ghost use Rattle.urna_base.specs.Digits.{padded};
ghost use Rattle.key_script.specs.Spelling.{key_byte, keys_text};
ghost use Rattle.election_tables.specs.Limits.{most_voters};
ghost use Rattle.urna_base.specs.Lines.{lines_text};
ghost use Rattle.rehearsal.specs.Script.{text_of_script, visit_at, visits};
ghost use Rattle.rehearsal.specs.Typing.{IsTyped, choice_keys, typed_keys};

use crate::title;
use crate::typing::{Typed, is_suspended, typed_at};
use urna_base::{Memory, put_digits, put_line};

/// Appends the line of a word and a number of so many digits.
pub(crate) fn put_numbered(
    text: &mut Vec<u8>,
    word: &[u8],
    number: u64,
    digits: u32,
) -> Result<(), Memory>
    requires some { 1 ≤ digits }
    requires few { digits ≤ 18 }
    requires fits { number < 10 ^ digits }
    ensures { OnOk result (text.new.items ≡ text.old.items ++ lines_text ((word.now ++ padded digits number) ∷ [])) }
{
    text.extend_from_slice(word)?;
    put_digits(text, number, digits)?;
    text.push(b'\n')?;
    Ok(())
}

/// Appends the bytes of what is typed, without CONFIRMA.
#[tactic(auto, using(crate::proofs::Events::digit_keys_written))]
fn put_choice(text: &mut Vec<u8>, typed: Typed) -> Result<(), Memory>
    requires { IsTyped typed }
    ensures { OnOk result (text.new.items ≡ text.old.items ++ map key_byte (choice_keys typed)) }
{
    match typed {
        Typed::Five(number) => put_digits(text, u64::from(number), 5)?,
        Typed::Two(number) => put_digits(text, u64::from(number), 2)?,
        Typed::Blank => text.push(b'B')?,
    }
    Ok(())
}

/// Appends the line of what the voter types in a panel.
fn put_typed(text: &mut Vec<u8>, typed: Typed) -> Result<(), Memory>
    requires { IsTyped typed }
    ensures { OnOk result (text.new.items ≡ text.old.items ++ lines_text (keys_text (typed_keys typed) ∷ [])) }
{
    text.extend_from_slice(b"E ")?;
    put_choice(text, typed)?;
    text.extend_from_slice(b"C\n")?;
    Ok(())
}

/// Appends the lines of the voter at a place, if the voter comes.
fn put_visit(text: &mut Vec<u8>, place: u32) -> Result<(), Memory>
    requires { place < most_voters }
    ensures { OnOk result (text.new.items ≡ text.old.items ++ text_of_script (visit_at place)) }
{
    let Some((first, second)) = typed_at(place) else {
        return Ok(());
    };
    put_numbered(text, b"M TITULO ", title(place), 12)?;
    put_line(text, b"M LIBERA")?;
    put_typed(text, first)?;
    if is_suspended(place) {
        put_line(text, b"M SUSPENDE")?;
    } else {
        put_typed(text, second)?;
    }
    Ok(())
}

/// Appends the lines of the first so many voters, one voter after another.
pub(crate) fn put_visits(text: &mut Vec<u8>, voters: u32) -> Result<(), Memory>
    requires { voters ≤ most_voters }
    ensures { OnOk result (text.new.items ≡ text.old.items ++ text_of_script (visits voters)) }
{
    for place in 0..voters {
        put_visit(text, place)?;
    }
    Ok(())
}
