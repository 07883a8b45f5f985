//! The terminals in memory: what one event changes, and what it asks to be done.
ghost use Rattle.std.specs.Prelude.{◌≡◌, ◌<◌, ◌^◌, [], ◌∷◌, length, map};
ghost use Rattle.std.specs.Bool.{OnTrue};
ghost use Rattle.election_tables.specs.TablesData.{IsTables, places_of};
ghost use Rattle.key_script.specs.Event.{IsClerkKey, IsEvent, IsKey};
ghost use Rattle.vote_kinds.specs.Ballot.{ballot_lines};
ghost use Rattle.image_codec.specs.State.{AreFirst, MayVote};
ghost use Rattle.station.specs.Session.{FitsLine};
ghost use Rattle.station.specs.Setting.{Setting, reply_at, setting_of};
ghost use Rattle.station.specs.Run.{after_suspension, suspension};
ghost use Rattle.station.specs.Press.{ChangesNothing, answered, calls_next, idle_at, press, title_of, typed};
ghost use Rattle.station.specs.Acts.{act_of};
ghost use Rattle.station.specs.Valid.{IsAnswer, IsStanding};

use crate::line::{Line, Title};
use crate::panel::OpenPanel;
use crate::perform::Act;
use crate::visit::{Choices, fill_up, line_behind};
use arrayvec::ArrayVec;
use clerk_term::{ClerkAnswer, Mode, reply};
use election_tables::{Roll, Tables};
use image_codec::State;
use key_script::{ClerkKey, Event, Key};
use std::marker::Model;
use vote_kinds::office_digits;
use voter_term::Shown;

/// Both terminals over the state of one poll, in memory. Contracts see a session as `SessionData` (`specs/Session.antt`).
#[derive(Drop)]
pub struct Session {
    state: State,
    mode: Mode,
    choices: Choices,
    panel: OpenPanel,
}

impl Model for Session {
    ghost use Rattle.station.specs.Session.{SessionData};
    ghost use Rattle.station.specs.Terminal.{digits_in, field_in};

    ghost Value = { SessionData };

    ghost view = { λ s. record {
      standing = record { state = s.state; mode = s.mode; choices = s.choices.items; field = field_in s.panel };
      digits = digits_in s.panel;
    } };
}

/// What one event asks to be done, in order.
pub(crate) type Acts = ArrayVec<Act, 2>;

fn one(act: Act) -> Acts
    ensures { result.items ≡ act ∷ [] }
{
    let mut acts = Acts::new();
    acts.push(act);
    acts
}

fn two(first: Act, second: Act) -> Acts
    ensures { result.items ≡ first ∷ second ∷ [] }
{
    let mut acts = Acts::new();
    acts.push(first);
    acts.push(second);
    acts
}

impl Session {
    /// Nobody is at the station.
    pub(crate) fn of(state: State) -> Session
        ensures { result.standing ≡ idle_at state }
    {
        Session {
            state,
            mode: Mode::Idle,
            choices: Choices::new(),
            panel: OpenPanel::of(2),
        }
    }

    /// The state of the poll.
    pub(crate) fn state(&self) -> &State
        ensures { result.now ≡ self.now.standing.state }
    {
        &self.state
    }

    /// Who is at the station.
    pub(crate) fn mode(&self) -> Mode
        ensures { result ≡ self.now.standing.mode }
    {
        self.mode
    }

    /// True only of an event that changes nothing: a key of the voter's terminal while nobody votes there.
    pub(crate) fn passes_over(&self, event: Event) -> bool
        ensures { (v : Setting) → OnTrue result (ChangesNothing v self.now.standing event) }
    {
        match (event, self.mode) {
            (Event::Voter(_), Mode::Idle | Mode::Identified(_)) => true,
            _ => false,
        }
    }

    /// One event.
    pub(crate) fn take_event(&mut self, tables: &Tables, roll: &Roll, event: Event) -> Acts
        requires event { IsEvent event }
        requires stands { IsStanding (setting_of tables.now roll.now.titles) self.old.standing }
        requires panel { FitsLine (setting_of tables.now roll.now.titles) self.old.standing self.old.digits }
        ensures standing { self.new.standing ≡ (press (setting_of tables.now roll.now.titles) self.old.standing event).standing }
        ensures panel { FitsLine (setting_of tables.now roll.now.titles) self.new.standing self.new.digits }
        ensures acts { result.items ≡ map act_of (press (setting_of tables.now roll.now.titles) self.old.standing event).out }
        ensures tables { IsTables tables.now }
    {
        let _panels = tables.panels();
        match event {
            Event::Voter(key) => self.typed(tables, roll, key),
            Event::Clerk(key) => {
                let answer = self.answer(tables, roll, key);
                self.answered(tables, roll, key, answer)
            }
        }
    }

    /// What a key of the clerk does, which may be acted on.
    fn answer(&self, tables: &Tables, roll: &Roll, key: ClerkKey) -> ClerkAnswer
        requires { IsStanding (setting_of tables.now roll.now.titles) self.now.standing }
        ensures value { result ≡ reply_at (setting_of tables.now roll.now.titles) self.now.standing.state self.now.standing.mode key }
        ensures may { IsAnswer (setting_of tables.now roll.now.titles) self.now.standing.state self.now.standing.choices key result }
    {
        let _panels = tables.panels();
        reply(
            self.state.phase(),
            self.state.turnout(),
            roll,
            self.mode,
            key,
        )
    }

    /// A key of the voter.
    fn typed(&mut self, tables: &Tables, roll: &Roll, key: Key) -> Acts
        requires key { IsKey key }
        requires stands { IsStanding (setting_of tables.now roll.now.titles) self.old.standing }
        requires panel { FitsLine (setting_of tables.now roll.now.titles) self.old.standing self.old.digits }
        ensures standing { self.new.standing
            ≡ (typed (setting_of tables.now roll.now.titles) self.old.standing.state self.old.standing.mode self.old.standing.choices self.old.standing.field key).standing }
        ensures panel { FitsLine (setting_of tables.now roll.now.titles) self.new.standing self.new.digits }
        ensures acts { result.items
            ≡ map act_of (typed (setting_of tables.now roll.now.titles) self.old.standing.state self.old.standing.mode self.old.standing.choices self.old.standing.field key).out }
    {
        let Mode::Voting(place) = self.mode else {
            return Acts::new();
        };
        let Some(line) = line_behind(tables, &self.choices) else {
            return Acts::new();
        };
        match self.panel.key(tables, line.panel, line.before, key) {
            Shown::Nothing => Acts::new(),
            Shown::Screen => one(Act::Say(Line::Screen {
                panel: line.panel,
                before: line.before,
                field: self.panel.field(),
            })),
            Shown::Voted(choice) => {
                self.choices.push(choice);
                one(self.calls_next(tables, roll, place))
            }
        }
    }

    /// A key of the clerk, with its answer.
    fn answered(&mut self, tables: &Tables, roll: &Roll, key: ClerkKey, answer: ClerkAnswer) -> Acts
        requires key { IsClerkKey key }
        requires stands { IsStanding (setting_of tables.now roll.now.titles) self.old.standing }
        requires panel { FitsLine (setting_of tables.now roll.now.titles) self.old.standing self.old.digits }
        requires answer { IsAnswer (setting_of tables.now roll.now.titles) self.old.standing.state self.old.standing.choices key answer }
        ensures standing { self.new.standing ≡ (answered (setting_of tables.now roll.now.titles) self.old.standing key answer).standing }
        ensures panel { FitsLine (setting_of tables.now roll.now.titles) self.new.standing self.new.digits }
        ensures acts { result.items ≡ map act_of (answered (setting_of tables.now roll.now.titles) self.old.standing key answer).out }
    {
        match answer {
            ClerkAnswer::Refused(number) => one(Act::Say(Line::Refused(number))),
            ClerkAnswer::Opens(moment) => {
                self.state.begin(moment);
                self.clear();
                two(
                    Act::Report(Title::Zeresima),
                    Act::Commit(Line::Opened(moment)),
                )
            }
            ClerkAnswer::Identifies(place) => {
                self.clear();
                self.mode = Mode::Identified(place);
                one(Act::Say(Line::Voter(title_of(key))))
            }
            ClerkAnswer::Releases(place) => {
                self.choices.clear();
                let next = self.calls_next(tables, roll, place);
                two(Act::Say(Line::Released), next)
            }
            ClerkAnswer::Cancels(_) => {
                self.clear();
                one(Act::Say(Line::Canceled))
            }
            ClerkAnswer::Suspends(place) => one(self.suspends(tables, roll, place)),
            ClerkAnswer::Seals(moment) => {
                let came = self.state.turnout().len();
                self.state.seal(moment);
                self.clear();
                two(
                    Act::Commit(Line::Sealed {
                        closed: moment,
                        came,
                    }),
                    Act::Report(Title::Boletim),
                )
            }
        }
    }

    /// Calls the next line of the ballot, or ends the visit.
    fn calls_next(&mut self, tables: &Tables, roll: &Roll, place: u32) -> Act
        requires voter { MayVote self.old.standing.state place }
        requires choices { AreFirst (ballot_lines tables.now) self.old.standing.choices }
        requires roll { length self.old.standing.state.came ≡ length roll.now.titles }
        requires places { self.old.standing.state.places ≡ places_of tables.now }
        ensures standing { self.new.standing ≡ (calls_next (setting_of tables.now roll.now.titles) self.old.standing.state place self.old.standing.choices).standing }
        ensures panel { FitsLine (setting_of tables.now roll.now.titles) self.new.standing self.new.digits }
        ensures act { result ∷ [] ≡ map act_of (calls_next (setting_of tables.now roll.now.titles) self.old.standing.state place self.old.standing.choices).out }
    {
        match line_behind(tables, &self.choices) {
            Some(line) => {
                self.panel = OpenPanel::of(office_digits(tables, line.panel));
                self.mode = Mode::Voting(place);
                Act::Say(Line::Ballot {
                    number: self.choices.len() as u32 + 1,
                    code: tables.office(line.panel).code,
                })
            }
            None => {
                self.state.ballot(tables, place, &self.choices);
                self.clear();
                Act::Commit(Line::Ended)
            }
        }
    }

    /// Ends the visit of a voter who is suspended.
    fn suspends(&mut self, tables: &Tables, roll: &Roll, place: u32) -> Act
        requires voter { MayVote self.old.standing.state place }
        requires choices { AreFirst (ballot_lines tables.now) self.old.standing.choices }
        requires roll { length self.old.standing.state.came ≡ length roll.now.titles }
        requires places { self.old.standing.state.places ≡ places_of tables.now }
        ensures standing { self.new.standing ≡ idle_at (after_suspension (setting_of tables.now roll.now.titles) self.old.standing.state place self.old.standing.choices) }
        ensures panel { FitsLine (setting_of tables.now roll.now.titles) self.new.standing self.new.digits }
        ensures act { result ≡ act_of (suspension (setting_of tables.now roll.now.titles) self.old.standing.state place self.old.standing.choices) }
    {
        if self.choices.is_empty() {
            self.clear();
            return Act::Say(Line::Suspended);
        }
        fill_up(&mut self.choices, tables.ballot_lines() as usize);
        self.state.ballot(tables, place, &self.choices);
        self.clear();
        Act::Commit(Line::Ended)
    }

    /// Nobody is at the station. The panel is an empty one; no key reaches it.
    fn clear(&mut self)
        ensures standing { self.new.standing ≡ idle_at self.old.standing.state }
        ensures panel { (v : Setting) → FitsLine v self.new.standing self.new.digits }
    {
        self.mode = Mode::Idle;
        self.choices.clear();
        self.panel = OpenPanel::of(2);
    }
}

/// The title of a key that has one.
fn title_of(key: ClerkKey) -> u64
    requires { IsClerkKey key }
    ensures value { result ≡ title_of key }
    ensures digits { result < 10 ^ 12 }
{
    match key {
        ClerkKey::Titulo(title) => title,
        _ => 0,
    }
}
