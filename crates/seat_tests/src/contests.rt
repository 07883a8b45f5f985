//! What comes of a contest.
use crate::owed::is_contest;
use crate::rows::{AVERAGES, CONTESTS};
use quotients::Average;
use seat_remainders::{
    Averages, Award, Awards, Contest, Contestant, Contestants, Entries, Entry, Numbers, Outcome,
    PartySeatList, PartySeats, averages, distribute,
};
use std::alloc::{AllocError, Global};
use std::test::Fail;
use urna_base::{Memory, decimal};

/// The date of birth of a candidate whose row tells none.
const BIRTH: &str = "19600101";

/// No row has a later date of birth.
const LAST_BIRTH: u64 = 99_991_231;

/// No row has more seats.
const MOST_SEATS: u64 = 1_000;

/// One candidate more of a party, by its votes and a date of birth behind `@`, or its party votes behind `L`; false where the row is no
/// such word. A candidate has the number of its party and its place in it, counted from 1, with three digits.
fn add_word(party: &mut Contestant, word: &str) -> Result<bool, Memory> {
    if let Some(votes) = word.strip_prefix("L") {
        return Ok(match decimal(votes.as_bytes()) {
            Some(votes) => {
                party.party_votes = votes;
                true
            }
            None => false,
        });
    }
    let (votes, birth) = word.split_once("@").unwrap_or((word, BIRTH));
    let place = party.candidates.len();
    match (decimal(votes.as_bytes()), decimal(birth.as_bytes())) {
        (Some(votes), Some(birth)) if birth <= LAST_BIRTH && place < 999 => {
            party.candidates.push(Entry {
                number: u32::from(party.number) * 1000 + place + 1,
                birth: birth as u32,
                votes,
            })?;
            Ok(true)
        }
        _ => Ok(false),
    }
}

/// The party of a piece of a row.
fn party_of(alloc: Global, piece: &str) -> Result<Option<Contestant>, Memory> {
    let Some((number, words)) = piece.split_once(": ") else {
        return Ok(None);
    };
    let Some(number) = decimal(number.as_bytes()) else {
        return Ok(None);
    };
    if number > 99 {
        return Ok(None);
    }
    let mut party = Contestant {
        number: number as u8,
        party_votes: 0,
        candidates: Entries::new(alloc),
    };
    for word in words.split(' ') {
        if !add_word(&mut party, word)? {
            return Ok(None);
        }
    }
    Ok(Some(party))
}

/// The contest of a row.
pub(crate) fn contest_of(alloc: Global, row: &str) -> Result<Option<Contest>, Memory> {
    let Some((seats, pieces)) = row.split_once(" seats, ") else {
        return Ok(None);
    };
    let Some(seats) = decimal(seats.as_bytes()) else {
        return Ok(None);
    };
    if seats > MOST_SEATS {
        return Ok(None);
    }
    let mut parties = Contestants::new(alloc);
    for piece in pieces.split(", ") {
        let Some(party) = party_of(alloc, piece)? else {
            return Ok(None);
        };
        if parties.len() >= 40 {
            return Ok(None);
        }
        parties.push(party)?;
    }
    Ok(Some(Contest {
        seats: seats as u32,
        parties,
    }))
}

/// What each party has: its number, its valid votes, its quotient and its seats.
fn told_parties(alloc: Global, parties: &PartySeatList) -> Result<String, AllocError> {
    let mut text = String::new(alloc);
    for i in 0..parties.len() {
        let PartySeats {
            number,
            votes,
            quotient,
            seats,
        } = *parties.get(i);
        write!(text, ", {number}: {votes} {quotient} {seats}")?;
    }
    Ok(text)
}

/// Each award, by the phase of its round and the party.
fn told_awards(alloc: Global, awards: &Awards) -> Result<String, AllocError> {
    let mut text = String::new(alloc);
    for i in 0..awards.len() {
        let Award { phase, party } = *awards.get(i);
        write!(text, " {phase}>{party}")?;
    }
    Ok(text)
}

/// Each average, as votes over a divisor and the party.
fn told_averages(alloc: Global, averages: &Averages) -> Result<String, AllocError> {
    let mut text = String::new(alloc);
    for i in 0..averages.len() {
        let average = averages.get(i);
        let votes = average.votes();
        let divisor = average.divisor();
        let party = average.party();
        write!(text, " {votes}/{divisor}>{party}")?;
    }
    Ok(text)
}

fn told_numbers(alloc: Global, numbers: &Numbers) -> Result<String, AllocError> {
    let mut text = String::new(alloc);
    for i in 0..numbers.len() {
        let number = *numbers.get(i);
        write!(text, " {number}")?;
    }
    Ok(text)
}

/// How the rows tell an outcome.
fn told(alloc: Global, outcome: &Outcome) -> Result<String, AllocError> {
    match outcome {
        Outcome::NoQuotient { valid, seats } => format!(in alloc; "no quotient {valid} {seats}"),
        Outcome::Over { first, seats } => format!(in alloc; "over {first} {seats}"),
        Outcome::Seats(seats) => {
            let quotient = seats.quotient;
            let vacant = seats.vacant;
            let parties = told_parties(alloc, &seats.parties)?;
            let awards = told_awards(alloc, &seats.awards)?;
            let elected = told_numbers(alloc, &seats.elected)?;
            format!(in alloc;
                "QE {quotient}{parties}, rounds{awards}, elected{elected}, vacant {vacant}"
            )
        }
    }
}

/// Whether a contest comes to what a row tells.
fn comes_to(alloc: Global, row: &str, outcome: &str) -> Result<bool, Memory> {
    match contest_of(alloc, row)? {
        Some(contest) if is_contest(&contest) => {
            let comes = distribute(alloc, &contest)?;
            Ok(told(alloc, &comes)?.as_str() == outcome)
        }
        _ => Ok(false),
    }
}

/// The first row that comes to something else.
fn wrong_contest(alloc: Global) -> Result<Option<&'static str>, Memory> {
    for (name, row, outcome) in CONTESTS {
        if !comes_to(alloc, row, outcome)? {
            return Ok(Some(*name));
        }
    }
    Ok(None)
}

#[test]
fn each_contest_has_its_outcome(rt: HostRuntime) -> Result<(), Fail> {
    assert!(rt; CONTESTS.len() == 40);
    let wrong = wrong_contest(rt.alloc())?;
    assert!(rt; wrong == None, "{}", wrong.unwrap_or(""));
    Ok(())
}

/// Whether a contest gives seats and has these averages, by `averages` and behind the seats.
fn has_averages(alloc: Global, row: &str, expected: &str) -> Result<bool, Memory> {
    match contest_of(alloc, row)? {
        Some(contest) if is_contest(&contest) => match distribute(alloc, &contest)? {
            Outcome::Seats(seats) => {
                let table = averages(alloc, &contest)?;
                Ok(
                    told_averages(alloc, &table)?.as_str() == expected
                        && told_averages(alloc, &seats.averages)?.as_str() == expected,
                )
            }
            _ => Ok(false),
        },
        _ => Ok(false),
    }
}

/// The first contest that has other averages.
fn wrong_averages(alloc: Global) -> Result<Option<&'static str>, Memory> {
    for (row, expected) in AVERAGES {
        if !has_averages(alloc, row, expected)? {
            return Ok(Some(*row));
        }
    }
    Ok(None)
}

#[test]
fn each_contest_has_its_averages(rt: HostRuntime) -> Result<(), Fail> {
    assert!(rt; AVERAGES.len() == 10);
    let wrong = wrong_averages(rt.alloc())?;
    assert!(rt; wrong == None, "{}", wrong.unwrap_or(""));
    Ok(())
}

/// Two averages in the order of seats: five hundred votes over three are more than three hundred over two.
#[test]
fn averages_are_kept_as_they_are_pushed(rt: HostRuntime) -> Result<(), Fail> {
    let (greater, lower) = (Average::new(500, 3, 10), Average::new(300, 2, 11));
    assert!(rt; greater != lower);
    assert!(rt; greater < lower);
    let mut averages = Averages::new(rt.alloc());
    averages.push(greater)?;
    averages.push(lower)?;
    assert!(rt; averages.len() == 2);
    assert!(rt; *averages.get(0) == greater && *averages.get(1) == lower);
    Ok(())
}
