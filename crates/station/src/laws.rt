//! Laws of runs (`specs/Run.antt`), of states (`specs/States.antt`), of what a station stands for (`specs/Stands.antt`), of the screens of
//! a visit (`specs/Screens.antt`), of ballots (`specs/Cast.antt`), and of the states after prefixes of the events (`specs/Prefixes.antt`).
ghost use Rattle.std.specs.Prelude.{◌≡◌, ◌*◌, ◌≤◌, ℕ, List, [], ◌∷◌, ◌++◌, length};
ghost use Rattle.std.specs.List.{AllByRecursion};
ghost use Rattle.election_tables.specs.Limits.{most_voters};
ghost use Rattle.election_tables.specs.TablesData.{IsTables, TablesData};
ghost use Rattle.key_script.specs.Event.{IsEvent};
ghost use Rattle.key_script.specs.declared.keys.Event.{Event};
ghost use Rattle.vote_kinds.specs.Ballot.{ballot_lines};
ghost use Rattle.image_codec.specs.CodecLaws.{Ballot};
ghost use Rattle.image_codec.specs.Encoding.{IsStateOf};
ghost use Rattle.image_codec.specs.State.{State, filled_up};
ghost use Rattle.state_store.specs.Cost.{CostAtMost, ballot_bytes, bytes_along};
ghost use Rattle.flash_store.specs.Pieces.{commits_in, lines_in, state_after, text_in};
ghost use Rattle.station.specs.Setting.{Setting, setting_of};
ghost use Rattle.station.specs.Output.{Output, commits_of};
ghost use Rattle.station.specs.Run.{IsRun, Visit};
ghost use Rattle.station.specs.Cast.{GivesOneVoteEach, ballot_of, ballots_of, fims_reached};
ghost use Rattle.station.specs.Screens.{AreOfLastScreens, confirmed_in};
ghost use Rattle.station.specs.Prefixes.{StatesAreAfterPrefixes};
ghost use Rattle.station.specs.Press.{Standing};
ghost use Rattle.station.specs.Stands.{StandsFor};
ghost use Rattle.station.specs.States.{IsHistory};
ghost use Rattle.station.specs.Text.{session_pieces};

/// From each state each list of events has exactly one run.
pub fn one_run()
    ensures exists { (t : TablesData) (titles : List ℕ) (s : State) (es : List Event) → IsTables t
        → (last : State) × (out : List Output) × IsRun (setting_of t titles) s es last out }
    ensures one { (t : TablesData) (titles : List ℕ) (s last other : State) (es : List Event) (out put : List Output) → IsTables t
        → IsRun (setting_of t titles) s es last out → IsRun (setting_of t titles) s es other put → (last ≡ other) × (out ≡ put) }
{}

/// What some events put out is the front of what any longer list puts out.
pub fn run_grows()
    ensures { (t : TablesData) (titles : List ℕ) (s last other : State) (es more : List Event) (out put : List Output) → IsTables t
        → IsRun (setting_of t titles) s es last out → IsRun (setting_of t titles) s (es ++ more) other put
        → (rest : List Output) × (put ≡ out ++ rest) }
{}

/// The states that a run commits follow one another by one opening, one voter or one seal, and the run leads to the last. They are
/// the states that the pieces of the session commit. Each of them is a state of a poll of the tables, where the run begins at one.
pub fn run_commits()
    ensures history { (v : Setting) (s last : State) (es : List Event) (out : List Output) → length s.came ≡ length v.roll
        → IsRun v s es last out → IsHistory v s (commits_of out) last }
    ensures commits { (t : TablesData) (out : List Output) → commits_in (session_pieces t out) ≡ commits_of out }
    ensures last { (t : TablesData) (titles : List ℕ) (s last : State) (es : List Event) (out : List Output) → length s.came ≡ length titles
        → IsRun (setting_of t titles) s es last out → state_after s (session_pieces t out) ≡ last }
    ensures valid { (t : TablesData) (titles : List ℕ) (s last : State) (es : List Event) (out : List Output)
        → IsStateOf t (length titles) s → AllByRecursion IsEvent es → IsRun (setting_of t titles) s es last out
        → AllByRecursion (IsStateOf t (length titles)) (commits_of out) × IsStateOf t (length titles) last }
{}

/// However many voters came before, each commit of a run puts no more bytes than a ballot may, and all together no more than as many
/// ballots may. A press has one commit at most (`event_commits`).
pub fn run_costs()
    ensures each { (t : TablesData) (titles : List ℕ) (s last : State) (es : List Event) (out : List Output) → IsTables t → length titles ≤ most_voters
        → IsStateOf t (length titles) s → AllByRecursion IsEvent es → IsRun (setting_of t titles) s es last out
        → CostAtMost t (ballot_bytes t) s (commits_of out) }
    ensures together { (t : TablesData) (titles : List ℕ) (s last : State) (es : List Event) (out : List Output) → IsTables t → length titles ≤ most_voters
        → IsStateOf t (length titles) s → AllByRecursion IsEvent es → IsRun (setting_of t titles) s es last out
        → bytes_along t s (commits_of out) ≤ length (commits_of out) * ballot_bytes t }
{}

/// A session shows `FIM` once for each ballot.
pub fn fims_and_ballots()
    ensures { (t : TablesData) (titles : List ℕ) (s last : State) (es : List Event) (out : List Output) → length s.came ≡ length titles
        → (run : IsRun (setting_of t titles) s es last out)
        → fims_reached (lines_in (session_pieces t out)) (length (text_in (session_pieces t out))) ≡ length (ballots_of run) }
{}

/// Each state that a run commits is the one after a prefix of its events, with the first of its texts and ballots.
pub fn prefixes()
    ensures { StatesAreAfterPrefixes }
{}

/// One event more commits at most one state more.
pub fn event_commits()
    ensures { (t : TablesData) (titles : List ℕ) (s last other : State) (es : List Event) (e : Event) (out put : List Output) → IsTables t
        → IsRun (setting_of t titles) s es last out → IsRun (setting_of t titles) s (es ++ e ∷ []) other (out ++ put)
        → length (commits_of put) ≤ 1 }
{}

/// The events for which a station stands are a run that leaves the state as it was.
pub fn stands_for()
    ensures { (v : Setting) (s : State) (x : Standing) (es : List Event) (out : List Output)
        → StandsFor v s x es out → IsRun v s es s out }
{}

/// In a visit each choice that was confirmed is that of the last screen that was shown on its line of the ballot, and the ballot of the
/// visit has these choices, with Null on each line that is left.
pub fn last_screens()
    ensures shown { (t : TablesData) (titles : List ℕ) (s u : State) (place : ℕ) (es : List Event) (out : List Output) → IsTables t
        → (visit : Visit (setting_of t titles) s place es u out) → AreOfLastScreens (setting_of t titles) (confirmed_in visit) out }
    ensures recorded { (v : Setting) (s t : State) (place : ℕ) (es : List Event) (out : List Output) (visit : Visit v s place es t out)
        (ballot : Ballot) → ballot_of visit ≡ ballot ∷ []
        → ballot ≡ record { place = place; choices = filled_up v.lines (confirmed_in visit) } }
{}

/// In no ballot of a run has a candidate two votes.
pub fn one_vote_each()
    ensures { (t : TablesData) (titles : List ℕ) (s last : State) (es : List Event) (out : List Output) → IsTables t
        → (run : IsRun (setting_of t titles) s es last out) → AllByRecursion (λ ballot. GivesOneVoteEach (ballot_lines t) ballot.choices) (ballots_of run) }
{}
