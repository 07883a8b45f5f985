//! Doing on a machine, over a store, what a session asks for.
ghost use Rattle.std.specs.Prelude.{◌≡◌, [], ◌∷◌, IfOk};
ghost use Rattle.std.specs.List.{AllByRecursion};
ghost use Rattle.urna_outside.specs.Told.{port_of};
ghost use Rattle.image_codec.specs.Encoding.{IsStateOf};
ghost use Rattle.image_codec.specs.State.{State};
ghost use Rattle.state_store.specs.Played.{Puts};
ghost use Rattle.flash_store.specs.Pieces.{state_after, telling};
ghost use Rattle.state_store.specs.Store.{AreDevices, IsBelow, IsLoadedWith, Keeps};
ghost use Rattle.station.specs.Acts.{IsAct, output_of, outputs_of};
ghost use Rattle.station.specs.Doing.{AreDoable};
ghost use Rattle.station.specs.Text.{IsLine, line_text, output_pieces, session_pieces};

use crate::line::{Line, Title};
use crate::session::Session;
use election_tables::{Roll, Tables};
use poll_report::show_counts;
use state_store::Store;
use urna_outside::{Dev, Machine, Port, show_line};

/// What a station asks to be done.
#[derive(Clone, Copy, Debug, PartialEq, Eq)]
pub(crate) enum Act {
    /// Show a line.
    Say(Line),
    /// Commit the state, and then show the line that tells it.
    Commit(Line),
    /// Show the counts of the record.
    Report(Title),
}

impl Default for Act {
    fn default() -> Self {
        Act::Say(Line::Released)
    }
}

/// Does the acts in order, over the state as it is now. The caller owes that the store keeps a state from which they may be done.
pub(crate) fn perform_all<M: Machine>(
    session: &Session,
    store: Store,
    tables: &Tables,
    roll: &Roll,
    m: &mut M,
    acts: &[Act],
) -> Result<Store, Port>
    requires acts { AllByRecursion (IsAct tables.now) acts.now }
    requires devices { AreDevices (M.told m.old).sizes }
    requires load { IsLoadedWith tables.now roll.now store.load }
    requires state { IsStateOf tables.now store.load.section.voters session.now.standing.state }
    requires may { AreDoable tables.now (M.told m.old) store session.now.standing.state acts.now }
    ensures load { IfOk result (λ next. next.load ≡ store.load) }
    ensures kept { (s : State) → Keeps tables.now (M.told m.old) store s
        → IfOk result (λ next. Keeps tables.now (M.told m.new) next (state_after s (session_pieces tables.now (outputs_of session.now.standing.state acts.now)))) }
    ensures puts { (s : State) → Keeps tables.now (M.told m.old) store s
        → Puts (λ port. port) result tables.now store.load s (session_pieces tables.now (outputs_of session.now.standing.state acts.now)) (M.told m.old) (M.told m.new) }
{
    let mut store = store;
    for act in acts {
        store = match perform(session, store, tables, roll, m, *act) {
            Ok(store) => store,
            Err(port) => return Err(port),
        };
    }
    Ok(store)
}

fn perform<M: Machine>(
    session: &Session,
    store: Store,
    tables: &Tables,
    roll: &Roll,
    m: &mut M,
    act: Act,
) -> Result<Store, Port>
    requires act { IsAct tables.now act }
    requires devices { AreDevices (M.told m.old).sizes }
    requires load { IsLoadedWith tables.now roll.now store.load }
    requires state { IsStateOf tables.now store.load.section.voters session.now.standing.state }
    requires may { AreDoable tables.now (M.told m.old) store session.now.standing.state (act ∷ []) }
    ensures load { IfOk result (λ next. next.load ≡ store.load) }
    ensures kept { (s : State) → Keeps tables.now (M.told m.old) store s
        → IfOk result (λ next. Keeps tables.now (M.told m.new) next (state_after s (output_pieces tables.now (output_of session.now.standing.state act)))) }
    ensures puts { (s : State) → Keeps tables.now (M.told m.old) store s
        → Puts (λ port. port) result tables.now store.load s (output_pieces tables.now (output_of session.now.standing.state act)) (M.told m.old) (M.told m.new) }
{
    match act {
        Act::Say(line) => match show_line(m, line.text(tables).as_bytes()) {
            Ok(()) => Ok(store),
            Err(_) => Err(Port::Display),
        },
        Act::Commit(line) => tell(session, store, tables, roll, m, line),
        Act::Report(title) => match show_counts(m, title.text(), tables, session.state().votes()) {
            Ok(()) => Ok(store),
            Err(_) => Err(Port::Display),
        },
    }
}

/// Commits the state, and then shows the line that tells it.
fn tell<M: Machine>(
    session: &Session,
    store: Store,
    tables: &Tables,
    roll: &Roll,
    m: &mut M,
    line: Line,
) -> Result<Store, Port>
    requires line { IsLine tables.now line }
    requires devices { AreDevices (M.told m.old).sizes }
    requires load { IsLoadedWith tables.now roll.now store.load }
    requires state { IsStateOf tables.now store.load.section.voters session.now.standing.state }
    requires below { IsBelow tables.now (M.told m.old) store session.now.standing.state }
    ensures load { IfOk result (λ next. next.load ≡ store.load) }
    ensures kept { IfOk result (λ next. Keeps tables.now (M.told m.new) next session.now.standing.state) }
    ensures puts { (s : State) → Keeps tables.now (M.told m.old) store s
        → Puts (λ port. port) result tables.now store.load s (telling session.now.standing.state (line_text tables.now line)) (M.told m.old) (M.told m.new) }
{
    let store = match store.commit(tables, m, session.state()) {
        Ok(store) => store,
        Err(dev) => return Err(port_of(dev)),
    };
    match show_line(m, line.text(tables).as_bytes()) {
        Ok(()) => Ok(store),
        Err(_) => Err(Port::Display),
    }
}

/// A device as the port that fails with it.
pub(crate) fn port_of(dev: Dev) -> Port
    ensures { result ≡ port_of dev }
{
    match dev {
        Dev::Internal => Port::Internal,
        Dev::External => Port::External,
    }
}
