//! The states of a poll, and their bodies, worked out by hand from docs/FORMATS.md (the crate `image_codec`).
ghost use Rattle.std.specs.Prelude.{◌≡◌, ◌<◌, ◌≤◌, length, vec_len, IfOk};
ghost use Rattle.election_tables.specs.Limits.{most_voters};

use crate::bodies::body_of;
use election_tables::Tables;
use image_codec::{State, decode, encode_into, rank_of};
use std::alloc::Global;
use std::process::Abort;
use std::test::Fail;
use turnout::Phase;
use urna_base::{Memory, moment_ok};
use vote_kinds::Choice;

const TABLES: &[u8] = br#"
processo = 7
data = 20261004
turno = 1
cargo = [{codigo = 11, regra = "absoluta", cadeiras = 1}]
partido = [
  {numero = 13, nome = "PA"},
  {numero = 45, nome = "PB"},
]
candidato = [
  {cargo = 11, numero = 13, nascimento = 19600303, nome = "CARLA"},
  {cargo = 11, numero = 45, nascimento = 19751212, nome = "DAVI"},
]
secao = [{zona = 1, secao = 42, eleitores = 3}]
"#;

const OPENED: u64 = 20261004080000;

const CLOSED: u64 = 20261004170000;

/// What a state tells: its rank and phase, who of three places came, and in the first panel the votes for candidates 13 and 45 and
/// the blank ones.
type Told = (u32, Phase, [bool; 3], [u32; 3]);

fn told(state: &State) -> Told
    requires { 0 < length state.now.bags }
{
    let turnout = state.turnout();
    let votes = state.votes();
    (
        state.rank(),
        state.phase(),
        [turnout.came(0), turnout.came(1), turnout.came(2)],
        [
            votes.count(0, Choice::Nominal(13)),
            votes.count(0, Choice::Nominal(45)),
            votes.count(0, Choice::Blank),
        ],
    )
}

/// The second of two voters votes in blank.
fn check_poll(rt: &(impl Abort + AllocGlobal), tables: &Tables) -> Result<(), Fail> {
    assert!(rt; tables.panels() == 1);
    assert!(rt; tables.ballot_lines() == 1);
    assert!(rt; moment_ok(OPENED) && moment_ok(CLOSED));
    let mut state = State::ready(rt.alloc(), tables, 2)?;
    let ready = state.rank();
    state.begin(OPENED);
    state.ballot(tables, 1, &[Choice::Blank]);
    let voted = state.rank();
    state.seal(CLOSED);
    assert!(rt; ready == 0 && voted == 2 && is_sealed(&state));
    Ok(())
}

fn is_sealed(state: &State) -> bool
    requires { 0 < length state.now.bags }
{
    let sealed = Phase::Sealed {
        opened: OPENED,
        closed: CLOSED,
    };
    told(state) == (3, sealed, [false, true, false], [0, 0, 1])
}

#[test]
fn a_poll_of_two_voters_of_whom_one_came(rt: HostRuntime) -> Result<(), Fail> {
    let tables = Tables::read(rt.alloc(), TABLES)?;
    check_poll(&rt, &tables)
}

/// A sealed poll in version 1: version and phase, 20261004080000, 20261004170000, how many came, the first and the third of three voters.
const SEALED: [u8; 23] = [
    1, 2, 0, 0, 18, 109, 97, 243, 115, 128, 0, 0, 18, 109, 97, 244, 211, 16, 0, 0, 0, 2, 160,
];

/// One panel: a vote for candidate 45 and a blank one.
const VOTES: [u8; 15] = [1, 0, 0, 0, 2, 1, 0, 0, 0, 45, 3, 0, 0, 0, 0];

/// The counters of the same votes: candidates 13 and 45, blank, null.
const COUNTERS: [u8; 16] = [0, 0, 0, 0, 0, 0, 0, 1, 0, 0, 0, 1, 0, 0, 0, 0];

/// A body of version 2 with such a front, one panel and these counters.
fn counted(alloc: Global, front: &[u8], counters: &[u8]) -> Result<Vec<u8>, Memory>
    requires front { length front.now ≤ 97 }
    requires counters { length counters.now ≤ 1000 }
    ensures { IfOk result (λ body. vec_len body ≡ 65536) }
{
    let mut body = vec![in alloc; 0; 65_536]?;
    body[..front.len()].copy_from_slice(front);
    body[0] = 2;
    body[97] = 1;
    body[512..512 + counters.len()].copy_from_slice(counters);
    Ok(body)
}

/// An open poll whose one voter came, and chose candidate 13.
const POLLING: [u8; 23] = [
    1, 1, 0, 0, 18, 109, 97, 243, 115, 128, 0, 0, 0, 0, 0, 0, 0, 0, 0, 0, 0, 1, 128,
];

const VOTE: [u8; 10] = [1, 0, 0, 0, 1, 1, 0, 0, 0, 13];

const COUNTER: [u8; 4] = [0, 0, 0, 1];

/// What the state of a body tells; nothing where it is no encoding.
fn read(alloc: Global, tables: &Tables, voters: u32, body: &[u8]) -> Result<Option<Told>, Memory>
    requires { voters ≤ most_voters }
{
    let _panels = tables.panels();
    match decode(alloc, tables, voters, body)? {
        Some(state) => Ok(Some(told(&state))),
        None => Ok(None),
    }
}

fn is_read(
    alloc: Global,
    tables: &Tables,
    voters: u32,
    body: &[u8],
    want: Told,
) -> Result<bool, Memory>
    requires { voters ≤ most_voters }
{
    Ok(read(alloc, tables, voters, body)? == Some(want))
}

/// A body of that many voters is of a state that tells this.
fn check_read(
    rt: &(impl Abort + AllocGlobal),
    voters: u32,
    body: &[u8],
    want: Told,
) -> Result<(), Fail>
    requires { voters ≤ most_voters }
{
    let tables = Tables::read(rt.alloc(), TABLES)?;
    assert!(rt; is_read(rt.alloc(), &tables, voters, body, want)?);
    Ok(())
}

#[test]
fn a_sealed_poll_is_read(rt: HostRuntime) -> Result<(), Fail> {
    let sealed = Phase::Sealed {
        opened: OPENED,
        closed: CLOSED,
    };
    let told = (4, sealed, [true, false, true], [0, 1, 1]);
    check_read(&rt, 3, &body_of(rt.alloc(), &SEALED, &VOTES)?, told)?;
    check_read(&rt, 3, &counted(rt.alloc(), &SEALED, &COUNTERS)?, told)
}

#[test]
fn an_open_poll_is_read(rt: HostRuntime) -> Result<(), Fail> {
    let polling = Phase::Polling { opened: OPENED };
    let told = (2, polling, [true, false, false], [1, 0, 0]);
    check_read(&rt, 1, &body_of(rt.alloc(), &POLLING, &VOTE)?, told)?;
    check_read(&rt, 1, &counted(rt.alloc(), &POLLING, &COUNTER)?, told)
}

/// Whether the poll of a body is written as these bytes, over whatever stands there.
fn is_written(alloc: Global, tables: &Tables, body: &[u8], want: &[u8]) -> Result<bool, Memory> {
    let Some(state) = decode(alloc, tables, 3, body)? else {
        return Ok(false);
    };
    let mut written = vec![in alloc; 255; 65_536]?;
    encode_into(&state, tables, &mut written);
    Ok(written.as_slice() == want)
}

fn check_written(rt: &(impl Abort + AllocGlobal), body: &[u8], want: &[u8]) -> Result<(), Fail> {
    let tables = Tables::read(rt.alloc(), TABLES)?;
    assert!(rt; is_written(rt.alloc(), &tables, body, want)?);
    Ok(())
}

#[test]
fn a_sealed_poll_of_either_version_is_written_in_version_2(rt: HostRuntime) -> Result<(), Fail> {
    let want = counted(rt.alloc(), &SEALED, &COUNTERS)?;
    check_written(&rt, &want, &want)?;
    check_written(&rt, &body_of(rt.alloc(), &SEALED, &VOTES)?, &want)
}

/// Whether bytes are the encoding of a state of one voter.
fn is_state_of(alloc: Global, tables: &Tables, body: &[u8]) -> Result<bool, Memory> {
    Ok(decode(alloc, tables, 1, body)?.is_some())
}

/// Versions, how many bytes of a body of version 1 there are, and whether they are a state's.
const LENGTHS: [(u8, usize, bool); 7] = [
    (1, 65_536, true),
    (2, 65_536, false),
    (9, 65_536, false),
    (1, 65_535, false),
    (1, 65_537, false),
    (1, 107, false),
    (1, 0, false),
];

/// The body of an open poll under other versions and lengths.
fn check_lengths(rt: &(impl Abort + AllocGlobal), tables: &Tables) -> Result<(), Fail> {
    let mut body = body_of(rt.alloc(), &POLLING, &VOTE)?;
    body.push(0)?;
    for (version, length, is_state) in LENGTHS {
        assert!(rt; 0 < body.len() && length <= body.len());
        body[0] = version;
        let found = is_state_of(rt.alloc(), tables, &body[..length])?;
        assert!(rt; found == is_state, "version {version}, {length} bytes");
    }
    Ok(())
}

#[test]
fn only_a_whole_body_of_its_version_is_a_state(rt: HostRuntime) -> Result<(), Fail> {
    let tables = Tables::read(rt.alloc(), TABLES)?;
    check_lengths(&rt, &tables)
}

/// A body of three voters is no encoding with these bytes in a place.
fn check_refused(
    rt: &impl Abort,
    tables: &Tables,
    body: &mut [u8],
    at: usize,
    bytes: &[u8],
    what: &str,
) {
    assert!(rt;
        at <= body.len() && bytes.len() <= body.len() - at,
        "{what}"
    );
    body[at..at + bytes.len()].copy_from_slice(bytes);
    assert!(rt; rank_of(tables, 3, body).is_none(), "{what}");
}

/// Places, what is put there, and what is wrong then: in a body of version 1.
const WRONG: [(usize, &[u8], &str); 15] = [
    (0, &[2], "version 2 over the votes of version 1"),
    (0, &[9], "version 9"),
    (1, &[3], "phase 3"),
    (
        10,
        &[0, 0, 18, 109, 97, 246, 11, 144],
        "closing at 25 hours",
    ),
    (
        10,
        &[0, 0, 18, 109, 97, 243, 76, 112],
        "closing at 7 hours, opening at 8",
    ),
    (1, &[1], "a closing moment, and polling"),
    (22, &[176], "the fourth of three voters came too"),
    (22, &[224], "three are marked, and two came"),
    (97, &[2], "two panels"),
    (106, &[46], "a vote for candidate 46"),
    (102, &[2], "a vote for a party where a mayor is elected"),
    (
        102,
        &[3, 0, 0, 0, 0, 1, 0, 0, 0, 45],
        "the blank vote before the nominal one",
    ),
    (111, &[45], "a blank vote with a number"),
    (112, &[1], "a byte after the last vote"),
    (65_535, &[1], "the last byte"),
];

/// Each of these changes refuses it.
fn check_fields(rt: &(impl Abort + AllocGlobal), tables: &Tables) -> Result<(), Fail> {
    for (at, bytes, what) in WRONG {
        let mut body = body_of(rt.alloc(), &SEALED, &VOTES)?;
        check_refused(rt, tables, &mut body, at, bytes, what);
    }
    Ok(())
}

#[test]
fn a_body_with_a_wrong_field_is_no_encoding(rt: HostRuntime) -> Result<(), Fail> {
    let tables = Tables::read(rt.alloc(), TABLES)?;
    check_fields(&rt, &tables)
}

/// The same of version 2.
const WRONG_COUNTED: [(usize, &[u8], &str); 12] = [
    (0, &[0], "version 0"),
    (0, &[1], "version 1 over the counters of version 2"),
    (0, &[3], "version 3"),
    (22, &[224], "three are marked, and two came"),
    (97, &[2], "two panels"),
    (98, &[1], "the first byte behind the head"),
    (511, &[1], "the last byte before the counters"),
    (515, &[1], "a vote more than came"),
    (519, &[0], "a vote less"),
    (
        512,
        &[255, 255, 255, 255, 0, 0, 0, 2],
        "2^32 and two votes of two who came",
    ),
    (528, &[1], "the first byte behind the last counter"),
    (65_535, &[1], "the last byte"),
];

/// Each of these changes refuses it.
fn check_counted_fields(rt: &(impl Abort + AllocGlobal), tables: &Tables) -> Result<(), Fail> {
    for (at, bytes, what) in WRONG_COUNTED {
        let mut body = counted(rt.alloc(), &SEALED, &COUNTERS)?;
        check_refused(rt, tables, &mut body, at, bytes, what);
    }
    Ok(())
}

#[test]
fn a_body_of_version_2_with_a_wrong_field_is_no_encoding(rt: HostRuntime) -> Result<(), Fail> {
    let tables = Tables::read(rt.alloc(), TABLES)?;
    check_counted_fields(&rt, &tables)
}

/// The rank of a body of version 1 of so many voters.
fn rank(
    alloc: Global,
    tables: &Tables,
    voters: u32,
    front: &[u8],
    bags: &[u8],
) -> Result<Option<u32>, Memory>
    requires voters { voters ≤ most_voters }
    requires front { length front.now ≤ 97 }
    requires bags { length bags.now ≤ 1000 }
{
    let body = body_of(alloc, front, bags)?;
    Ok(rank_of(tables, voters, &body))
}

/// The rank of a body of version 2.
fn rank_counted(
    alloc: Global,
    tables: &Tables,
    voters: u32,
    front: &[u8],
    counters: &[u8],
) -> Result<Option<u32>, Memory>
    requires voters { voters ≤ most_voters }
    requires front { length front.now ≤ 97 }
    requires counters { length counters.now ≤ 1000 }
{
    let body = counted(alloc, front, counters)?;
    Ok(rank_of(tables, voters, &body))
}

/// The ranks of a body of its roll and of another one, of a ready one, and of one with a moment.
fn check_ranks(rt: &(impl Abort + AllocGlobal), tables: &Tables) -> Result<(), Fail> {
    let opened = [1, 0, 0, 0, 18, 109, 97, 243, 115, 128];
    assert!(rt;
        [
            rank(rt.alloc(), tables, 3, &SEALED, &VOTES)?,
            rank(rt.alloc(), tables, 2, &SEALED, &VOTES)?,
            rank(rt.alloc(), tables, 3, &[1, 0], &[1])?,
            rank(rt.alloc(), tables, 3, &opened, &[1])?,
        ] == [Some(4), None, Some(0), None]
    );
    Ok(())
}

#[test]
fn a_body_is_of_its_roll_and_a_ready_one_has_no_moments(rt: HostRuntime) -> Result<(), Fail> {
    let tables = Tables::read(rt.alloc(), TABLES)?;
    check_ranks(&rt, &tables)
}

/// The same of version 2.
fn check_counted_ranks(rt: &(impl Abort + AllocGlobal), tables: &Tables) -> Result<(), Fail> {
    let opened = [1, 0, 0, 0, 18, 109, 97, 243, 115, 128];
    assert!(rt;
        [
            rank_counted(rt.alloc(), tables, 3, &SEALED, &COUNTERS)?,
            rank_counted(rt.alloc(), tables, 2, &SEALED, &COUNTERS)?,
            rank_counted(rt.alloc(), tables, 3, &[1, 0], &[])?,
            rank_counted(rt.alloc(), tables, 3, &opened, &[])?,
        ] == [Some(4), None, Some(0), None]
    );
    Ok(())
}

#[test]
fn so_is_a_body_of_version_2(rt: HostRuntime) -> Result<(), Fail> {
    let tables = Tables::read(rt.alloc(), TABLES)?;
    check_counted_ranks(&rt, &tables)
}

/// A ready state is offered a body that is too short, and then this one: its rank behind the first, whether it took on the second, and its
/// rank and how many came then. Nothing where it took on the first.
fn loads(
    alloc: Global,
    tables: &Tables,
    body: &[u8],
) -> Result<Option<(u32, bool, u32, u32)>, Memory> {
    let mut state = State::ready(alloc, tables, 3)?;
    if state.load(tables, &SEALED) {
        return Ok(None);
    }
    let before = state.rank();
    let whole = state.load(tables, body);
    Ok(Some((before, whole, state.rank(), state.turnout().len())))
}

/// It refuses the one, and takes on the sealed poll of the other.
fn check_load(rt: &(impl Abort + AllocGlobal), body: &[u8]) -> Result<(), Fail> {
    let tables = Tables::read(rt.alloc(), TABLES)?;
    assert!(rt; loads(rt.alloc(), &tables, body)? == Some((0, true, 4, 2)));
    Ok(())
}

#[test]
fn a_ready_state_takes_on_a_sealed_one(rt: HostRuntime) -> Result<(), Fail> {
    check_load(&rt, &body_of(rt.alloc(), &SEALED, &VOTES)?)?;
    check_load(&rt, &counted(rt.alloc(), &SEALED, &COUNTERS)?)
}
