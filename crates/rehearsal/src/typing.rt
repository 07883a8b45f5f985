//! Which voters come, and what each of them types.
ghost use Rattle.std.specs.Prelude.{◌≡◌, ◌<◌, ◌≤◌, IfSome};
ghost use Rattle.election_tables.specs.Limits.{most_voters};
ghost use Rattle.rehearsal.specs.Typing.{IsTypedPair, councillor_at, is_suspended, typed_at};

/// What a voter types in a panel before CONFIRMA.
#[derive(Clone, Copy)]
pub enum Typed {
    /// A number with five digits.
    Five(u32),
    /// A number with two digits.
    Two(u32),
    /// BRANCO.
    Blank,
}

/// A party's candidate for councillor, whom the voter at a place types.
fn councillor(place: u32, party: u32) -> Typed
    requires place { place < most_voters }
    requires party { party ≤ 99 }
    ensures { result ≡ councillor_at place party }
{
    Typed::Five(1000 * party + 100 + place / 20 / 8)
}

/// What the voter at a place types in the two panels, if the voter comes.
pub(crate) fn typed_at(place: u32) -> Option<(Typed, Typed)>
    requires { place < most_voters }
    ensures typed { result ≡ typed_at place }
    ensures fits { IfSome result IsTypedPair }
{
    match place % 20 {
        0 | 1 | 2 | 5 => Some((councillor(place, 10), Typed::Two(10))),
        3 => Some((Typed::Two(10), Typed::Two(10))),
        6 | 7 | 10 => Some((councillor(place, 11), Typed::Two(11))),
        11 => Some((councillor(place, 11), Typed::Two(12))),
        12 => Some((councillor(place, 12), Typed::Two(12))),
        13 => Some((Typed::Two(12), Typed::Two(13))),
        15 => Some((councillor(place, 12), Typed::Two(14))),
        16 => Some((councillor(place, 13), Typed::Two(15))),
        17 => Some((councillor(place, 14), Typed::Blank)),
        8 | 18 => Some((Typed::Blank, Typed::Two(99))),
        _ => None,
    }
}

/// Whether the clerk suspends, after panel 1, the voter at a place of the roll; places are counted from 0.
pub fn is_suspended(place: u32) -> bool
    ensures { result ≡ is_suspended place }
{
    place % 80 == 7
}
