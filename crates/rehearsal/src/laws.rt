//! Laws of the rehearsal's texts (`specs/Laws.antt`). The function here does nothing: its contract is the law.
ghost use Rattle.rehearsal.specs.Laws.{KeysAreAccepted, RollIsAccepted, TablesAreAccepted};

/// For each number of voters from 1 to 600 the three texts are accepted: the tables keep all rules, the roll is one, and each line of
/// the keys has the form. So no reader answers a refusal, and they are read as the rehearsal's tables, roll and events.
pub fn no_text_is_refused()
    ensures tables { TablesAreAccepted }
    ensures roll { RollIsAccepted }
    ensures keys { KeysAreAccepted }
{}
