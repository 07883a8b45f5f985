ghost use Rattle.std.specs.Prelude.{◌≡◌, ◌≤◌, true, false, length, IfOk, IfSome, IsNone};
ghost use Rattle.urna_base.specs.Moment.{is_moment};
ghost use Rattle.election_tables.specs.Limits.{most_voters};
ghost use Rattle.election_tables.specs.TablesData.{places_of};
ghost use Rattle.vote_kinds.specs.Ballot.{ballot_lines};
ghost use Rattle.image_codec.specs.Encoding.{IsEncoding, IsNoEncoding};
ghost use Rattle.image_codec.specs.State.{opened_at, with_ballot, with_votes, sealed_at, rank_in, rank_of, MayVote, IsBallot};
ghost use Rattle.image_codec.specs.Valid.{ready_state, IsValid, HasRoomForVoter, MayClose};

use crate::codec::{checked, fill_turnout, fill_votes};
use election_tables::Tables;
use std::alloc::Global;
use std::marker::Model;
use turnout::{Phase, Turnout};
use urna_base::Memory;
use vote_kinds::Choice;
use vote_record::Rdv;

/// The state of a poll (docs/RULES.md, "The state of a poll"). It has the memory for just its voters and all their votes, from
/// the start to the end: the rooms of its lists follow from the number of voters and the places of the panels, which no step
/// changes. Contracts see its phase, who came, and for each panel how many votes a voter has in it and a bag of choices.
#[derive(Debug, Drop)]
pub struct State {
    phase: Phase,
    turnout: Turnout,
    votes: Rdv,
}

impl Model for State {
    ghost use Rattle.std.specs.Prelude.{◌≡◌, length};
    ghost use Rattle.image_codec.specs.State as poll;

    ghost Value = { poll.State };

    ghost use Rattle.image_codec.specs.Valid.{IsValid};

    ghost view = { λ s. record { phase = s.phase; came = s.turnout; places = s.votes.places; bags = s.votes.bags } };

    ghost invariant = { λ s. IsValid (record { phase = s.phase; came = s.turnout; places = s.votes.places; bags = s.votes.bags }) × (s.votes.voters ≡ length s.turnout) };
}

impl State {
    /// The state of a section with so many voters before the poll: nobody came, and no panel has a vote. All its memory
    /// is taken here; `Memory` comes only where an allocation failed.
    pub fn ready(alloc: Global, tables: &Tables, voters: u32) -> Result<State, Memory>
        requires { voters ≤ most_voters }
        ensures { IfOk result (λ s. s ≡ ready_state tables.now voters) }
    {
        let turnout = Turnout::new(alloc, voters)?;
        let votes = Rdv::new(alloc, tables, voters)?;
        Ok(State {
            phase: Phase::Ready,
            turnout,
            votes,
        })
    }

    /// How far the poll is.
    pub fn phase(&self) -> Phase
        ensures phase { result ≡ self.now.phase }
        ensures valid { IsValid self.now }
    {
        self.phase
    }

    /// Who came.
    pub fn turnout(&self) -> &Turnout
        ensures { result.now ≡ self.now.came }
    {
        &self.turnout
    }

    /// The record of the votes.
    pub fn votes(&self) -> &Rdv
        ensures bags { result.now.bags ≡ self.now.bags }
        ensures valid { IsValid self.now }
        ensures places { result.now.places ≡ self.now.places }
        ensures voters { result.now.voters ≡ length self.now.came }
    {
        &self.votes
    }

    /// The rank of the state: 0 if ready, one more than came if polling, two more if sealed. Each step raises it.
    pub fn rank(&self) -> u32
        ensures { result ≡ rank_of self.now }
    {
        rank_with(self.phase, self.turnout.len())
    }

    /// Opens the poll. It takes no memory. The caller owes that the state is ready, and that the opening moment is one.
    pub fn begin(&mut self, opened: u64)
        requires ready { self.old.phase ≡ Phase.Ready }
        requires moment { is_moment opened ≡ true }
        ensures { self.new ≡ opened_at self.old opened }
    {
        self.phase = Phase::Polling { opened };
    }

    /// The voter of a place came and chose so. It takes no memory. The caller owes that the poll is open and the voter has not
    /// come, that there is one choice for each line of the ballot, each a choice of its line, and that the tables have the
    /// panels of the state, with as many votes of a voter in each.
    pub fn ballot(&mut self, tables: &Tables, place: u32, choices: &[Choice])
        requires voter { MayVote self.old place }
        requires ballot { IsBallot (ballot_lines tables.now) choices.now }
        requires places { self.old.places ≡ places_of tables.now }
        ensures { self.new ≡ with_ballot (ballot_lines tables.now) self.old place choices.now }
    {
        self.turnout.mark(place);
        add_choices(&mut self.votes, tables, choices);
    }

    /// Takes on the state whose encoding some bytes are, of either version, of a poll of these tables and as many voters as
    /// this state has places; answers false and changes nothing exactly where no state has that encoding. Bytes of any
    /// length may be given. It takes no memory.
    ///
    /// The caller owes that this state is ready, and that the tables have its panels, with as many votes of a voter in each.
    pub fn load(&mut self, tables: &Tables, bytes: &[u8]) -> bool
        requires ready { self.old.phase ≡ Phase.Ready }
        requires places { self.old.places ≡ places_of tables.now }
        ensures loaded { result ≡ true → IsEncoding tables.now (length self.old.came) self.new bytes.now }
        ensures unchanged { result ≡ false → self.new ≡ self.old }
        ensures none { result ≡ false → IsNoEncoding tables.now (length self.old.came) bytes.now }
    {
        match checked(tables, self.turnout.voters(), bytes) {
            Some(head) => {
                fill_turnout(&mut self.turnout, bytes);
                fill_votes(&mut self.votes, tables, head.came, bytes);
                self.phase = head.phase;
                true
            }
            None => false,
        }
    }

    /// Seals the poll. It takes no memory. The caller owes that the poll is open, and that the closing moment is one and not
    /// below the opening.
    pub fn seal(&mut self, closed: u64)
        requires closing { MayClose self.old.phase closed }
        requires moment { is_moment closed ≡ true }
        ensures { self.new ≡ sealed_at self.old closed }
    {
        if let Phase::Polling { opened } = self.phase {
            self.phase = Phase::Sealed { opened, closed };
        }
    }
}

/// The state whose encoding some bytes are, of either version, of a poll of these tables and so many voters, of whom there are
/// at most 600; `Ok(None)` exactly where no state has that encoding. Bytes of any length may be given. `Memory` comes only
/// where an allocation failed.
pub fn decode(
    alloc: Global,
    tables: &Tables,
    voters: u32,
    bytes: &[u8],
) -> Result<Option<State>, Memory>
    requires { voters ≤ most_voters }
    ensures found { IfOk result (λ found. IfSome found (λ s. IsEncoding tables.now voters s bytes.now)) }
    ensures none { IfOk result (λ found. IsNone found → IsNoEncoding tables.now voters bytes.now) }
{
    let mut state = State::ready(alloc, tables, voters)?;
    if state.load(tables, bytes) {
        Ok(Some(state))
    } else {
        Ok(None)
    }
}

/// The rank of a state in this phase with so many who came.
pub(crate) fn rank_with(phase: Phase, came: u32) -> u32
    requires { came ≤ most_voters }
    ensures { result ≡ rank_in phase came }
{
    match phase {
        Phase::Ready => 0,
        Phase::Polling { .. } => 1 + came,
        Phase::Sealed { .. } => came + 2,
    }
}

/// One voter's choices: each goes into the bag of its line's panel.
fn add_choices(votes: &mut Rdv, tables: &Tables, choices: &[Choice])
    requires ballot { IsBallot (ballot_lines tables.now) choices.now }
    requires panels { length votes.old.bags ≡ length tables.now.panels }
    requires places { votes.old.places ≡ places_of tables.now }
    requires room { HasRoomForVoter votes.old }
    ensures { votes.new ≡ record votes.old { bags = with_votes (ballot_lines tables.now) choices.now votes.old.bags } }
{
    for line in 0..tables.ballot_lines() {
        votes.add(tables, tables.line_panel(line), choices[line as usize]);
    }
}
