//! The blocs of a contest between two rounds (art. 109). Each is counted before the first one; then only its seats change.
ghost use Rattle.std.specs.Prelude.{◌≡◌, ◌↔◌, ◌+◌, ◌≤◌, ◌<◌, ◌^◌, [], length, map, not, IfOk, IsTrue};
ghost use Rattle.std.specs.List.{AllByRecursion, list_any};
ghost use Rattle.quotients.specs.Order.{parts_of};
ghost use Rattle.seat_remainders.specs.Contest.{IsContest};
ghost use Rattle.seat_certificate.specs.Blocs.{averages_of, blocs_after, competes, next_average, phase_of, seated};

use arrayvec::ArrayVec;
use quotients::Average;
use seat_remainders::{Averages, Contest, Standing, most_seats, standing_of};
use std::alloc::Global;
use urna_base::Memory;

/// A bloc between two rounds: what is counted of it, and its seats so far.
#[derive(Clone, Copy, Debug, Default, PartialEq, Eq)]
pub(crate) struct Bloc {
    pub standing: Standing,
    pub seats: u32,
}

/// The blocs of a contest, rising by number; a number is a byte, so there is room for all. They take no memory.
pub(crate) type Blocs = ArrayVec<Bloc, 256>;

/// The blocs of a contest after the first phase.
pub(crate) fn blocs_of(contest: &Contest, qe: u64) -> Blocs
    requires contest { IsContest contest.now }
    requires some { 1 ≤ qe }
    requires quotient { qe ≤ 10 ^ 12 }
    ensures { result.items ≡ blocs_after qe [] contest.now.parties }
{
    let mut blocs = Blocs::new();
    for party in contest.parties.as_slice() {
        let standing = standing_of(party, qe);
        blocs.push(Bloc {
            standing,
            seats: standing.first,
        });
    }
    blocs
}

impl Bloc {
    /// Whether it competes in a round of this phase, which is 2 or 3: it has fewer seats than it can have at most.
    fn competes(&self, phase: u8) -> bool
        ensures fewer { result ≡ competes phase self.now }
        ensures room { IsTrue result → self.now.seats + 1 < 2 ^ 32 }
    {
        self.seats < most_seats(&self.standing, phase)
    }

    /// Its next average.
    fn next_average(&self) -> Average
        requires { self.now.seats + 1 < 2 ^ 32 }
        ensures { parts_of result ≡ next_average self.now }
    {
        Average::new(self.standing.votes, self.seats + 1, self.standing.party)
    }
}

/// The phase of the next round: 2 where a bloc competes in it, and else 3.
pub(crate) fn next_phase(blocs: &[Bloc]) -> u8
    ensures { result ≡ phase_of blocs.now }
{
    if any_competes(blocs, 2) { 2 } else { 3 }
}

/// Whether no bloc competes any more.
pub(crate) fn nobody_left(blocs: &[Bloc]) -> bool
    ensures { result ≡ not (list_any (competes (phase_of blocs.now)) blocs.now) }
{
    !any_competes(blocs, next_phase(blocs))
}

fn any_competes(blocs: &[Bloc], phase: u8) -> bool
    ensures { result ≡ list_any (competes phase) blocs.now }
{
    for bloc in blocs {
        if bloc.competes(phase) {
            return true;
        }
    }
    false
}

/// Whether these are the averages that compete in a round of this phase.
pub(crate) fn are_competing(blocs: &[Bloc], phase: u8, averages: &Averages) -> bool
    ensures { IsTrue result ↔ (averages.now ≡ averages_of phase blocs.now) }
{
    let mut place = 0;
    for bloc in blocs {
        if bloc.competes(phase) {
            if place >= averages.len() || *averages.get(place) != bloc.next_average() {
                return false;
            }
            place += 1;
        }
    }
    place == averages.len()
}

/// The averages that compete in a round of this phase.
pub(crate) fn competing(alloc: Global, blocs: &[Bloc], phase: u8) -> Result<Averages, Memory>
    requires { length blocs.now < 2 ^ 32 }
    ensures { IfOk result (λ averages. averages ≡ averages_of phase blocs.now) }
{
    let mut averages = Averages::new(alloc);
    for bloc in blocs {
        if bloc.competes(phase) {
            averages.push(bloc.next_average())?;
        }
    }
    Ok(averages)
}

/// One seat more of the bloc with this number.
pub(crate) fn give_seat(blocs: &mut [Bloc], party: u8)
    requires { AllByRecursion (λ b. b.seats + 1 < 2 ^ 32) blocs.old }
    ensures { blocs.new ≡ map (seated party) blocs.old }
{
    for bloc in blocs.iter_mut() {
        if bloc.standing.party == party {
            bloc.seats += 1;
        }
    }
}
