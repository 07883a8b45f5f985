//! Laws that tie the keypad's table to whole words of keys.
ghost use Rattle.std.specs.Prelude.{◌≡◌, ℕ, ◌<◌, true, List, [], ◌∷◌, ◌++◌, Option};
ghost use Rattle.key_script.specs.declared.keys.Key.{Key};
ghost use Rattle.vote_kinds.specs.declared.choice.Choice.{Choice};
ghost use Rattle.vote_kinds.specs.declared.choice.Field.{Field};
ghost use Rattle.vote_kinds.specs.Ballot.{BallotLine, is_confirmable};
ghost use Rattle.voter_term.specs.Field.{field_after, screens_behind, shown_by, IsUnconfirmed, Reads};
ghost use Rattle.voter_term.specs.Panel.{next_field, next_shown};

/// The keypad's table says what one more key does to the field after a word, and what it shows.
pub fn field_after_key()
    ensures field { (digits : ℕ) (w : List Key) (k : Key) → 0 < digits
        → field_after digits (w ++ k ∷ []) ≡ next_field digits (field_after digits w) k }
    ensures shown { (line : BallotLine) (earlier : Option Choice) (w : List Key) (k : Key) → 0 < line.digits
        → shown_by line earlier w k ≡ next_shown line earlier (field_after line.digits w) k }
{}

/// CONFIRMA ends a line exactly at the end of a panel word: where no panel word stands at the front of a word, one key more makes
/// the word a panel word with the choice that it shows, or leaves it without one.
pub fn word_after_key()
    ensures { (line : BallotLine) (earlier : Option Choice) (w : List Key) (k : Key) → IsUnconfirmed line w
        → Reads line earlier (w ++ k ∷ []) (shown_by line earlier w k) }
{}

/// Where the field after a word may be confirmed, it is the field of the last screen that the word shows. So the choice with which
/// CONFIRMA ends a line is that of its last screen.
pub fn last_screen()
    ensures { (line : BallotLine) (earlier : Option Choice) (w : List Key) → 0 < line.digits
        → is_confirmable line (field_after line.digits w) ≡ true
        → (before : List Field) × (screens_behind line earlier [] w ≡ before ++ field_after line.digits w ∷ []) }
{}
