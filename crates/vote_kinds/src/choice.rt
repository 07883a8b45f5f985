ghost use Rattle.std.specs.Prelude.{◌≡◌, ◌≤◌, IfNone, IfSome};
ghost use Rattle.vote_kinds.specs.Choice.{kind_of, number_of, choice_with, choice_le, is_same};

/// What a voter chose on one line of the ballot.
#[derive(Clone, Copy, Debug, Default, PartialEq, Eq)]
pub enum Choice {
    /// The candidate of this number.
    Nominal(u32),
    /// The party of this number.
    Party(u8),
    Blank,
    #[default]
    Null,
}

impl Choice {
    /// Its kind as votes are written: 1 nominal, 2 party, 3 blank, 4 null (docs/FORMATS.md, "The body").
    pub fn kind(self) -> u8
        ensures kind { result ≡ kind_of self }
        ensures known { (1 ≤ result) × (result ≤ 4) }
    {
        match self {
            Choice::Nominal(_) => 1,
            Choice::Party(_) => 2,
            Choice::Blank => 3,
            Choice::Null => 4,
        }
    }

    /// The number that it names, 0 where it names none.
    pub fn number(self) -> u32
        ensures { result ≡ number_of self }
    {
        match self {
            Choice::Nominal(number) => number,
            Choice::Party(number) => u32::from(number),
            Choice::Blank => 0,
            Choice::Null => 0,
        }
    }

    /// The choice of a kind and a number; `None` exactly where there is none.
    pub fn of_parts(kind: u8, number: u32) -> Option<Choice>
        ensures value { result ≡ choice_with kind number }
        ensures found { IfSome result (λ c. (kind_of c ≡ kind) × (number_of c ≡ number)) }

        // a party's number has eight bits
        ensures none { IfNone result ((c : Choice) → kind_of c ≡ kind → number_of c ≡ number → (kind ≡ 2) × (256 ≤ number)) }
    {
        match kind {
            1 => Some(Choice::Nominal(number)),
            2 if number < 256 => Some(Choice::Party(number as u8)),
            3 if number == 0 => Some(Choice::Blank),
            4 if number == 0 => Some(Choice::Null),
            _ => None,
        }
    }

    /// Whether it is the same choice as `other`.
    pub fn is_same(self, other: Choice) -> bool
        ensures { result ≡ is_same self other }
    {
        self.kind() == other.kind() && self.number() == other.number()
    }

    /// Whether it stands before `other` in the order of choices, or is it.
    pub fn is_at_or_before(self, other: Choice) -> bool
        ensures { result ≡ choice_le self other }
    {
        if self.kind() == other.kind() {
            self.number() <= other.number()
        } else {
            self.kind() < other.kind()
        }
    }
}

/// What stands typed on a line of the ballot.
#[derive(Clone, Copy, Debug, PartialEq, Eq)]
pub enum Field {
    Empty,
    /// So many digits, 1 to 5, and the number that they write, below 10 to their count.
    Digits { count: u8, value: u32 },
    Blank,
}
