//! What the definitions settle. Each function here does nothing: its contract is the law.
ghost use Rattle.election_tables.specs.Laws.{BlocIsLowest, BlocIsParty, BlocsAreFederations, BrokenIsFirst, FederationIsTold, KeptIsAll, RollIsDetermined, TablesAreDetermined, TwoForSenatorAlone};

/// The rule that an answer names is the first of the rules that doesn't hold, and a document keeps the rules where all hold.
pub fn broken_rule_is_first()
    ensures first { BrokenIsFirst }
    ensures kept { KeptIsAll }
{}

/// A document has one reading: nothing in the tables or in the roll is left open by the bytes.
pub fn reading_is_determined()
    ensures tables { TablesAreDetermined }
    ensures roll { RollIsDetermined }
{}

/// How many votes a voter has for an office of the tables: two for two senators, and one for every other.
pub fn two_for_senator_alone()
    ensures { TwoForSenatorAlone }
{}

/// What a bloc is: two parties are of one exactly where they are one, or are in one federation; its number is the lowest of
/// theirs, a party of the tables, and that of a federation exactly where they are in one.
pub fn blocs()
    ensures federations { BlocsAreFederations }
    ensures lowest { BlocIsLowest }
    ensures party { BlocIsParty }
    ensures told { FederationIsTold }
{}
