//! The rows of the tests. What comes of each contest follows from the rules of `docs/RULES.md`, "The seats": `tools/seats.py` works it
//! out with fractions, and knows nothing of this program.
use seat_remainders::MajorityOutcome;

/// A name, a contest, and what comes of it. The contest has its seats, and each party its number, its party votes behind `L`, and the
/// votes of each candidate, with the date of birth behind `@` where it isn't 19600101; the second candidate of party 10 has the number
/// 10002. The outcome has the electoral quotient; of each party the number, the valid votes, the quotient and the seats; each award as
/// the phase of its round and the party; the numbers of the elected; and the vacant seats.
pub(crate) const CONTESTS: &[(&str, &str, &str)] = &[
    (
        "two rounds of the second phase",
        "5 seats, 10: 300 100 100, 11: 200 100, 12: 150, 13: 50",
        "QE 200, 10: 500 2 3, 11: 300 1 2, 12: 150 0 0, 13: 50 0 0, rounds 2>10 2>11, elected 10001 10002 10003 11001 11002, \
         vacant 0",
    ),
    (
        "the fraction is just a half",
        "4 seats, 10: 150 100 50, 11: 100 50",
        "QE 112, 10: 300 2 3, 11: 150 1 1, rounds 2>10, elected 10001 10002 10003 11001, vacant 0",
    ),
    (
        "the fraction is more than a half",
        "4 seats, 10: 151 100 50, 11: 100 50",
        "QE 113, 10: 301 2 3, 11: 150 1 1, rounds 2>10, elected 10001 10002 10003 11001, vacant 0",
    ),
    (
        "0.3 of a vote for a seat",
        "10 seats, 10: L3 0 0",
        "no quotient 3 10",
    ),
    (
        "half a vote for a seat",
        "10 seats, 10: 2 1, 11: 2",
        "no quotient 5 10",
    ),
    (
        "more than half a vote for a seat",
        "10 seats, 10: 1 1 1 1 1 1 0 0",
        "QE 1, 10: 6 6 8, rounds 3>10 3>10, elected 10001 10002 10003 10004 10005 10006 10007 10008, vacant 2",
    ),
    (
        "fifteen first seats of ten",
        "10 seats, 10: 1 1 1 1 1 1 1 1 1 1 1 1 1 1 1",
        "over 15 10",
    ),
    (
        "eleven first seats of ten at half the seats",
        "10 seats, 10: 5 5 5 5 5 5 5 5 5 5 5",
        "over 11 10",
    ),
    (
        "one quotient more than half the seats",
        "10 seats, 10: 6 6 6 6 6 6 6 6 6 5, 11: 1",
        "QE 6, 10: 59 9 10, 11: 1 0 0, rounds 2>10, elected 10001 10002 10003 10004 10005 10006 10007 10008 10009 10010, vacant 0",
    ),
    (
        "just all seats are first seats",
        "4 seats, 10: 150 100 50, 11: 60 40",
        "QE 100, 10: 300 3 3, 11: 100 1 1, rounds, elected 10001 10002 10003 11001, vacant 0",
    ),
    (
        "a party below eighty percent takes the last seat",
        "2 seats, 10: 61, 11: 39",
        "QE 50, 10: 61 1 1, 11: 39 0 1, rounds 3>11, elected 10001 11001, vacant 0",
    ),
    (
        "one party with too few candidates",
        "5 seats, 10: 60 40",
        "QE 20, 10: 100 5 2, rounds, elected 10001 10002, vacant 3",
    ),
    (
        "one party without candidates",
        "3 seats, 10: L90",
        "QE 30, 10: 90 3 0, rounds, elected, vacant 3",
    ),
    (
        "just ten percent",
        "3 seats, 10: 190 10, 11: 100",
        "QE 100, 10: 200 2 2, 11: 100 1 1, rounds, elected 10001 10002 11001, vacant 0",
    ),
    (
        "one vote below ten percent",
        "3 seats, 10: 191 9, 11: 100",
        "QE 100, 10: 200 2 2, 11: 100 1 1, rounds 3>10, elected 10001 10002 11001, vacant 0",
    ),
    (
        "ten percent of 113 is 11.3",
        "4 seats, 10: L216 100 12 11, 11: 113",
        "QE 113, 10: 339 3 3, 11: 113 1 1, rounds 3>10, elected 10001 10002 10003 11001, vacant 0",
    ),
    (
        "just twenty percent",
        "3 seats, 10: L10 100 20, 11: 170",
        "QE 100, 10: 130 1 2, 11: 170 1 1, rounds 2>10, elected 10001 10002 11001, vacant 0",
    ),
    (
        "one vote below twenty percent",
        "3 seats, 10: L11 100 19, 11: 170",
        "QE 100, 10: 130 1 2, 11: 170 1 1, rounds 3>10, elected 10001 10002 11001, vacant 0",
    ),
    (
        "just eighty percent",
        "3 seats, 10: 220, 11: 80",
        "QE 100, 10: 220 2 1, 11: 80 0 1, rounds 2>11, elected 10001 11001, vacant 1",
    ),
    (
        "one vote below eighty percent",
        "3 seats, 10: 221 0, 11: 79",
        "QE 100, 10: 221 2 2, 11: 79 0 1, rounds 3>10 3>11, elected 10001 10002 11001, vacant 0",
    ),
    (
        "eighty percent of 113 is 90.4",
        "4 seats, 10: L31 120 120, 11: 91, 12: 90",
        "QE 113, 10: 271 2 2, 11: 91 0 1, 12: 90 0 1, rounds 2>11 3>12, elected 10001 10002 11001 12001, vacant 0",
    ),
    (
        "an average that is greater by a sixth",
        "4 seats, 10: 100 52 50, 11: 100 35, 12: L63",
        "QE 100, 10: 202 2 2, 11: 135 1 2, 12: 63 0 0, rounds 2>11, elected 10001 10002 11001 11002, vacant 0",
    ),
    (
        "equal averages, more votes",
        "4 seats, 10: 100 100 100, 11: 100 100",
        "QE 125, 10: 300 2 3, 11: 200 1 1, rounds 2>10, elected 10001 10002 10003 11001, vacant 0",
    ),
    (
        "equal averages, more votes at the higher number",
        "4 seats, 10: 100 100, 11: 100 100 100",
        "QE 125, 10: 200 1 1, 11: 300 2 3, rounds 2>11, elected 10001 11001 11002 11003, vacant 0",
    ),
    (
        // Who divides by one more than the party quotient in every round gives party 11 the second seat too.
        "equal averages and votes, the lower number",
        "5 seats, 10: 100 100 100, 11: 90 90, 12: 90 90, 13: 85 85, 14: 85 85",
        "QE 200, 10: 300 1 1, 11: 180 0 1, 12: 180 0 1, 13: 170 0 1, 14: 170 0 1, rounds 2>11 2>12 2>13 2>14, \
         elected 10001 11001 12001 13001 14001, vacant 0",
    ),
    (
        "three equal parties and one seat left",
        "7 seats, 10: L10 30 30 30, 11: L10 30 30 30, 12: L10 30 30 30",
        "QE 43, 10: 100 2 3, 11: 100 2 2, 12: 100 2 2, rounds 2>10, elected 10001 10002 10003 11001 11002 12001 12002, vacant 0",
    ),
    (
        "a tie of votes, the older",
        "2 seats, 10: 40@19700101 40@19600102 40@19600101, 11: 20",
        "QE 70, 10: 120 1 2, 11: 20 0 0, rounds 2>10, elected 10003 10002, vacant 0",
    ),
    (
        "a tie of votes and births, the lower number",
        "2 seats, 10: 40@19700101 40@19600101 40@19600101, 11: 20",
        "QE 70, 10: 120 1 2, 11: 20 0 0, rounds 2>10, elected 10002 10003, vacant 0",
    ),
    (
        "more votes before the older",
        "2 seats, 10: 39@19000101 41@19990101 40@19500101, 11: L1",
        "QE 60, 10: 120 2 2, 11: 1 0 0, rounds, elected 10002 10003, vacant 0",
    ),
    (
        "the second phase, then the third",
        "6 seats, 10: 150 60 10 5, 11: 95 60 10, 12: 70, 13: 60 19 1, 14: 60",
        "QE 100, 10: 225 2 3, 11: 165 1 2, 12: 70 0 0, 13: 80 0 1, 14: 60 0 0, rounds 2>11 2>13 3>10, \
         elected 10001 10002 10003 11001 11002 13001, vacant 0",
    ),
    (
        "a great party without candidates of twenty percent",
        "4 seats, 10: L195 5, 11: 150 50",
        "QE 100, 10: 200 2 1, 11: 200 2 2, rounds 3>10, elected 10001 11001 11002, vacant 1",
    ),
    (
        "equal averages in the third phase, more votes",
        "4 seats, 10: 295, 11: 40 30, 12: 35",
        "QE 100, 10: 295 2 1, 11: 70 0 2, 12: 35 0 1, rounds 3>11 3>11 3>12, elected 10001 11001 11002 12001, vacant 0",
    ),
    (
        "equal averages and votes in the third phase, the lower number",
        "3 seats, 10: 180, 11: 40, 12: 40, 13: 40",
        "QE 100, 10: 180 1 1, 11: 40 0 1, 12: 40 0 1, 13: 40 0 0, rounds 3>11 3>12, elected 10001 11001 12001, vacant 0",
    ),
    (
        "a party without votes takes no seat",
        "4 seats, 10: 100, 11: 0 0, 12: L100",
        "QE 50, 10: 100 2 1, 11: 0 0 0, 12: 100 2 0, rounds, elected 10001, vacant 3",
    ),
    (
        "a candidate without votes takes a seat",
        "3 seats, 10: L50 250 0 0",
        "QE 100, 10: 300 3 3, rounds 3>10 3>10, elected 10001 10002 10003, vacant 0",
    ),
    (
        "each party has one candidate",
        "3 seats, 10: 61, 11: 39",
        "QE 33, 10: 61 1 1, 11: 39 1 1, rounds, elected 10001 11001, vacant 1",
    ),
    (
        "a federation of two parties",
        "3 seats, 10: 60 20, 20: 35 40 25",
        "QE 60, 10: 80 1 1, 20: 100 1 2, rounds 2>20, elected 10001 20002 20001, vacant 0",
    ),
    (
        "forty parties of one vote",
        "10 seats, 10: 1, 11: 1, 12: 1, 13: 1, 14: 1, 15: 1, 16: 1, 17: 1, 18: 1, 19: 1, 20: 1, 21: 1, 22: 1, 23: 1, 24: 1, \
         25: 1, 26: 1, 27: 1, 28: 1, 29: 1, 30: 1, 31: 1, 32: 1, 33: 1, 34: 1, 35: 1, 36: 1, 37: 1, 38: 1, 39: 1, 40: 1, 41: 1, \
         42: 1, 43: 1, 44: 1, 45: 1, 46: 1, 47: 1, 48: 1, 49: 1",
        "QE 4, 10: 1 0 1, 11: 1 0 1, 12: 1 0 1, 13: 1 0 1, 14: 1 0 1, 15: 1 0 1, 16: 1 0 1, 17: 1 0 1, 18: 1 0 1, 19: 1 0 1, \
         20: 1 0 0, 21: 1 0 0, 22: 1 0 0, 23: 1 0 0, 24: 1 0 0, 25: 1 0 0, 26: 1 0 0, 27: 1 0 0, 28: 1 0 0, 29: 1 0 0, \
         30: 1 0 0, 31: 1 0 0, 32: 1 0 0, 33: 1 0 0, 34: 1 0 0, 35: 1 0 0, 36: 1 0 0, 37: 1 0 0, 38: 1 0 0, 39: 1 0 0, \
         40: 1 0 0, 41: 1 0 0, 42: 1 0 0, 43: 1 0 0, 44: 1 0 0, 45: 1 0 0, 46: 1 0 0, 47: 1 0 0, 48: 1 0 0, 49: 1 0 0, \
         rounds 3>10 3>11 3>12 3>13 3>14 3>15 3>16 3>17 3>18 3>19, \
         elected 10001 11001 12001 13001 14001 15001 16001 17001 18001 19001, vacant 0",
    ),
    (
        "forty parties, each with one vote more",
        "20 seats, 10: 10, 11: 11, 12: 12, 13: 13, 14: 14, 15: 15, 16: 16, 17: 17, 18: 18, 19: 19, 20: 20, 21: 21, 22: 22, \
         23: 23, 24: 24, 25: 25, 26: 26, 27: 27, 28: 28, 29: 29, 30: 30, 31: 31, 32: 32, 33: 33, 34: 34, 35: 35, 36: 36, 37: 37, \
         38: 38, 39: 39, 40: 40, 41: 41, 42: 42, 43: 43, 44: 44, 45: 45, 46: 46, 47: 47, 48: 48, 49: 49",
        "QE 59, 10: 10 0 0, 11: 11 0 0, 12: 12 0 0, 13: 13 0 0, 14: 14 0 0, 15: 15 0 0, 16: 16 0 0, 17: 17 0 0, 18: 18 0 0, \
         19: 19 0 0, 20: 20 0 0, 21: 21 0 0, 22: 22 0 0, 23: 23 0 0, 24: 24 0 0, 25: 25 0 0, 26: 26 0 0, 27: 27 0 0, 28: 28 0 0, \
         29: 29 0 0, 30: 30 0 1, 31: 31 0 1, 32: 32 0 1, 33: 33 0 1, 34: 34 0 1, 35: 35 0 1, 36: 36 0 1, 37: 37 0 1, 38: 38 0 1, \
         39: 39 0 1, 40: 40 0 1, 41: 41 0 1, 42: 42 0 1, 43: 43 0 1, 44: 44 0 1, 45: 45 0 1, 46: 46 0 1, 47: 47 0 1, 48: 48 0 1, \
         49: 49 0 1, rounds 2>49 2>48 3>47 3>46 3>45 3>44 3>43 3>42 3>41 3>40 3>39 3>38 3>37 3>36 3>35 3>34 3>33 3>32 3>31 3>30, \
         elected 30001 31001 32001 33001 34001 35001 36001 37001 38001 39001 40001 41001 42001 43001 44001 45001 46001 47001 48001 49001, \
         vacant 0",
    ),
    (
        "a million million votes",
        "200 seats, 10: L500000000000 100000000000 100000000000, 11: L100000000000 100000000000, 12: 99999999999, 13: 1",
        "QE 5000000000, 10: 700000000000 140 2, 11: 200000000000 40 1, 12: 99999999999 19 1, 13: 1 0 1, rounds 3>13, \
         elected 10001 10002 11001 12001 13001, vacant 195",
    ),
];

/// The candidates of a majority office by votes and date of birth, whether the absolute rule decides, and what comes of it.
pub(crate) const MAJORITIES: &[(&[(u64, u32)], bool, MajorityOutcome)] = &[
    // more than half of the votes, and just half
    (
        &[(51, 19600101), (30, 19600101), (19, 19600101)],
        true,
        MajorityOutcome::Elected(1),
    ),
    (
        &[(50, 19600101), (30, 19600101), (20, 19600101)],
        true,
        MajorityOutcome::Runoff(1, 2),
    ),
    // the order of candidates: votes, then birth, then number
    (
        &[(20, 19600101), (30, 19600101), (50, 19600101)],
        true,
        MajorityOutcome::Runoff(3, 2),
    ),
    (
        &[(40, 19700101), (40, 19600101)],
        false,
        MajorityOutcome::Elected(2),
    ),
    (
        &[(40, 19600101), (40, 19600101)],
        true,
        MajorityOutcome::Runoff(1, 2),
    ),
    (
        &[(30, 19600101), (30, 19600101), (30, 19500101)],
        true,
        MajorityOutcome::Runoff(3, 1),
    ),
    // one candidate has all votes
    (&[(7, 19600101)], true, MajorityOutcome::Elected(1)),
    // no votes, and no candidates
    (
        &[(0, 19600101), (0, 19600101)],
        false,
        MajorityOutcome::Nobody,
    ),
    (&[], true, MajorityOutcome::Nobody),
];

/// A contest, and its averages in order, each as votes over a divisor and the party.
pub(crate) const AVERAGES: &[(&str, &str)] = &[
    (
        "5 seats, 10: 300 100 100, 11: 200 100, 12: 150, 13: 50",
        " 500/3>10 300/2>11",
    ),
    // equal averages: more votes, then the lower party
    (
        "4 seats, 10: 100 100 100, 11: 100 100",
        " 300/3>10 200/2>11",
    ),
    (
        "4 seats, 10: 100 100, 11: 100 100 100",
        " 300/3>11 200/2>10",
    ),
    (
        "5 seats, 10: 100 100 100, 11: 90 90, 12: 90 90, 13: 85 85, 14: 85 85",
        " 180/1>11 180/1>12 170/1>13 170/1>14 300/2>10 300/3>10 180/2>11 180/2>12 170/2>13 170/2>14",
    ),
    // no more of a party than seats remain
    ("2 seats, 10: 40 40 40, 11: 20", " 120/2>10"),
    // phase 2 gives two of the three seats that remain
    (
        "6 seats, 10: 150 60 10 5, 11: 95 60 10, 12: 70, 13: 60 19 1, 14: 60",
        " 165/2>11 80/1>13",
    ),
    // no party meets the minimums
    ("2 seats, 10: 61, 11: 39", ""),
    ("3 seats, 10: 61, 11: 39", ""),
    ("4 seats, 10: L195 5, 11: 150 50", ""),
    // no seat remains
    ("4 seats, 10: 150 100 50, 11: 60 40", ""),
];
