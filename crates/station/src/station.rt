ghost use Rattle.std.specs.Prelude.{◌≡◌, ◌++◌, ◌∷◌, ◌↔◌, [], List, IfErr, IfOk, IsTrue};
ghost use Rattle.urna_outside.specs.Told.{Told, port_of};
ghost use Rattle.urna_outside.specs.declared.device.Dev.{Dev};
ghost use Rattle.urna_outside.specs.declared.device.Port.{Port};
ghost use Rattle.election_tables.specs.TablesData.{IsTables};
ghost use Rattle.key_script.specs.declared.keys.Event.{Event};
ghost use Rattle.key_script.specs.Event.{IsEvent};
ghost use Rattle.image_codec.specs.State.{State};
ghost use Rattle.state_store.specs.Played.{HasPut, HasStopped, Puts};
ghost use Rattle.state_store.specs.Store.{AreDevices};
ghost use Rattle.station.specs.Output.{Output};
ghost use Rattle.station.specs.Press.{press};
ghost use Rattle.station.specs.Run.{IsRun};
ghost use Rattle.station.specs.Session.{FitsLine};
ghost use Rattle.station.specs.Setting.{setting_of};
ghost use Rattle.station.specs.Stands.{IsReached, StandsFor, StandsOn};
ghost use Rattle.station.specs.Start.{FailsToStart, IsStarted, start_error};
ghost use Rattle.station.specs.Station.{IsAsked, IsStationed, StationData};
ghost use Rattle.station.specs.Text.{session_pieces};
ghost use Rattle.station.specs.Valid.{IsStanding};

use crate::line::Line;
use crate::perform::{Act, perform_all, port_of};
use crate::session::{Acts, Session};
use clerk_term::Mode;
use election_tables::{Roll, Section, Tables};
use image_codec::State;
use key_script::{Event, Script};
use state_store::{Store, StoreError};
use std::alloc::Global;
use std::marker::Model;
use urna_outside::{Dev, Machine, Port, show_line};

/// Why a station didn't start.
#[derive(Clone, Copy, Debug, PartialEq, Eq)]
pub enum StartError {
    /// Want of memory. Nothing was done on the machine.
    Memory,
    /// A port of the machine failed, and its count of faults rose.
    Port(Port),
    /// The device has not the frame of a load of these tables and this roll.
    Foreign(Dev),
    /// No slot of the flashes stands.
    NoImage,
}

/// Both terminals over the state of one poll, which both flashes keep. Contracts see a station as `StationData`
/// (`specs/Station.antt`).
#[derive(Drop)]
pub struct Station {
    session: Session,
    store: Store,
}

impl Model for Station {
    ghost use Rattle.station.specs.Station.{StationData};

    ghost Value = { StationData };

    ghost view = { λ s. record { standing = s.session.standing; digits = s.session.digits; store = s.store } };
}

impl Station {
    /// A station over the poll that the flashes hold: it takes all memory of the session, recovers, and shows where the poll
    /// stands.
    ///
    /// A port is answered only where its count of faults rose. Foreign and NoImage come exactly where a frame is another one, or no
    /// slot stands.
    pub fn start<M: Machine>(
        alloc: Global,
        tables: &Tables,
        roll: &Roll,
        m: &mut M,
    ) -> Result<Station, StartError>
        requires devices { AreDevices (M.told m.old).sizes }
        ensures stationed { IfOk result (IsStationed tables.now roll.now (M.told m.new)) }
        ensures started { IfOk result (λ station. IsStarted tables.now roll.now station (M.told m.old) (M.told m.new)) }
        ensures fails { IfErr result (FailsToStart tables.now roll.now (M.told m.old) (M.told m.new)) }
    {
        let (store, state) = match Store::recover(alloc, tables, roll, m) {
            Ok(found) => found,
            Err(error) => return Err(start_error(error)),
        };
        let opening = Line::Poll {
            phase: state.phase(),
            came: state.turnout().len(),
        };
        match show_line(m, opening.text(tables).as_bytes()) {
            Ok(()) => Ok(Station {
                session: Session::of(state),
                store,
            }),
            Err(_) => Err(StartError::Port(Port::Display)),
        }
    }

    /// One event, with its commit and its shown lines. It takes no memory.
    ///
    /// A station that stands for a state and the events since it was last idle goes on so, or is idle again after a run of them;
    /// what it commits and shows is what their run puts out beyond what was put out before. The caller owes that the event is valid,
    /// and that the tables, the roll and the machine are those of the station. A port is answered only where its count of faults
    /// rose; the station is then consumed, and no further call was made on the machine.
    pub fn press<M: Machine>(
        self,
        tables: &Tables,
        roll: &Roll,
        m: &mut M,
        event: Event,
    ) -> Result<Station, Port>
        requires event { IsEvent event }
        requires devices { AreDevices (M.told m.old).sizes }
        requires stationed { IsStationed tables.now roll.now (M.told m.old) self }
        ensures run { IfOk result (λ next. (put : List Output)
            × HasPut tables.now self.store.load self.standing.state (session_pieces tables.now put) (M.told m.old) (M.told m.new)
            × ((s : State) (es : List Event) (out : List Output) → StandsFor (setting_of tables.now roll.now.titles) s self.standing es out
            → StandsOn (setting_of tables.now roll.now.titles) s next.standing.mode next.standing (es ++ event ∷ []) (out ++ put))) }
        ensures stationed { IfOk result (IsStationed tables.now roll.now (M.told m.new)) }
        ensures load { IfOk result (λ next. next.store.load ≡ self.store.load) }
        ensures cut { IfErr result (λ port. (put : List Output)
            × HasStopped tables.now self.store.load self.standing.state (session_pieces tables.now put) port (M.told m.old) (M.told m.new)
            × ((s : State) (es : List Event) (out : List Output) → StandsFor (setting_of tables.now roll.now.titles) s self.standing es out
            → (t : State) × IsRun (setting_of tables.now roll.now.titles) s (es ++ event ∷ []) t (out ++ put))) }
    {
        self.do_event(tables, roll, m, event)
    }

    /// All events of a script in order, from an idle station on. It takes no memory.
    ///
    /// The events lead from the station's state to that of the next by a run, whose states were committed and whose lines were
    /// shown: those of the events until the station was last idle, and of those since, for which it stands. The caller owes that the
    /// tables, the roll and the machine are those of the station. A port is answered only where its count of faults rose; then the
    /// pieces of the run were put out up to the fault, the station is consumed, and no further call was made on the machine.
    pub fn run<M: Machine>(
        self,
        tables: &Tables,
        roll: &Roll,
        m: &mut M,
        script: &Script,
    ) -> Result<Station, Port>
        requires devices { AreDevices (M.told m.old).sizes }
        requires stationed { IsStationed tables.now roll.now (M.told m.old) self }
        requires idle { self.standing.mode ≡ Mode.Idle }
        ensures run { IfOk result (λ next. (out : List Output)
            × IsRun (setting_of tables.now roll.now.titles) self.standing.state script.now next.standing.state out
            × IsReached (setting_of tables.now roll.now.titles) self.standing.state script.now out next.standing
            × HasPut tables.now self.store.load self.standing.state (session_pieces tables.now out) (M.told m.old) (M.told m.new)) }
        ensures stationed { IfOk result (IsStationed tables.now roll.now (M.told m.new)) }
        ensures load { IfOk result (λ next. next.store.load ≡ self.store.load) }
        ensures cut { IfErr result (λ port. (t : State) × (out : List Output)
            × IsRun (setting_of tables.now roll.now.titles) self.standing.state script.now t out
            × HasStopped tables.now self.store.load self.standing.state (session_pieces tables.now out) port (M.told m.old) (M.told m.new)) }
    {
        let mut station = self;
        for event in script.events() {
            // quicker than to take the event, which would ask for nothing
            if station.session.passes_over(event) {
                continue;
            }
            let acts = station.take_event(tables, roll, event);
            // a key that asks for nothing doesn't move the station
            if acts.is_empty() {
                continue;
            }
            station = match station.perform(tables, roll, m, &acts) {
                Ok(station) => station,
                Err(port) => return Err(port),
            };
        }
        Ok(station)
    }

    /// One event in memory, and what it asks to be done.
    fn take_event(&mut self, tables: &Tables, roll: &Roll, event: Event) -> Acts
        requires event { IsEvent event }
        requires stands { IsStanding (setting_of tables.now roll.now.titles) self.old.standing }
        requires panel { FitsLine (setting_of tables.now roll.now.titles) self.old.standing self.old.digits }
        ensures asked { (told : Told) → IsStationed tables.now roll.now told self.old → IsAsked tables.now roll.now told self.old event self.new result.items }
        ensures tables { IsTables tables.now }
    {
        self.session.take_event(tables, roll, event)
    }

    /// Does what an event asked for.
    fn perform<M: Machine>(
        self,
        tables: &Tables,
        roll: &Roll,
        m: &mut M,
        acts: &[Act],
    ) -> Result<Station, Port>
        requires devices { AreDevices (M.told m.old).sizes }
        requires asked { (from : StationData) × (event : Event) × IsAsked tables.now roll.now (M.told m.old) from event self acts.now }
        ensures standing { IfOk result (λ next. next.standing ≡ self.standing) }
        ensures load { IfOk result (λ next. next.store.load ≡ self.store.load) }
        ensures stationed { IfOk result (IsStationed tables.now roll.now (M.told m.new)) }
        ensures puts { (from : StationData) (event : Event) → IsAsked tables.now roll.now (M.told m.old) from event self acts.now
            → Puts (λ port. port) result tables.now from.store.load from.standing.state
            (session_pieces tables.now (press (setting_of tables.now roll.now.titles) from.standing event).out) (M.told m.old) (M.told m.new) }
    {
        let Station { session, store } = self;
        match perform_all(&session, store, tables, roll, m, acts) {
            Ok(store) => Ok(Station { session, store }),
            Err(port) => Err(port),
        }
    }

    /// One event, done.
    fn do_event<M: Machine>(
        self,
        tables: &Tables,
        roll: &Roll,
        m: &mut M,
        event: Event,
    ) -> Result<Station, Port>
        requires event { IsEvent event }
        requires devices { AreDevices (M.told m.old).sizes }
        requires stationed { IsStationed tables.now roll.now (M.told m.old) self }
        ensures tables { IsTables tables.now }
        ensures standing { IfOk result (λ next. next.standing ≡ (press (setting_of tables.now roll.now.titles) self.standing event).standing) }
        ensures stationed { IfOk result (IsStationed tables.now roll.now (M.told m.new)) }
        ensures load { IfOk result (λ next. next.store.load ≡ self.store.load) }
        ensures puts { Puts (λ port. port) result tables.now self.store.load self.standing.state
            (session_pieces tables.now (press (setting_of tables.now roll.now.titles) self.standing event).out) (M.told m.old) (M.told m.new) }
    {
        let mut station = self;
        let acts = station.take_event(tables, roll, event);
        station.perform(tables, roll, m, &acts)
    }

    /// Whether nobody is identified or voting.
    pub fn idle(&self) -> bool
        ensures { IsTrue result ↔ (self.now.standing.mode ≡ Mode.Idle) }
    {
        self.session.mode() == Mode::Idle
    }

    /// The state of the poll.
    pub fn state(&self) -> &State
        ensures { result.now ≡ self.now.standing.state }
    {
        self.session.state()
    }

    /// The section whose poll it is.
    pub fn section(&self) -> Section
        ensures { result ≡ self.now.store.load.section }
    {
        self.store.section()
    }
}

/// What a recovery that failed is for the start of a station.
fn start_error(error: StoreError) -> StartError
    ensures { result ≡ start_error error }
{
    match error {
        StoreError::Memory => StartError::Memory,
        StoreError::Flash(dev) => StartError::Port(port_of(dev)),
        StoreError::Foreign(dev) => StartError::Foreign(dev),
        StoreError::NoImage => StartError::NoImage,
    }
}
