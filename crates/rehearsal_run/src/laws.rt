//! Laws of the rehearsal's run (`specs/Sealed.antt`).
ghost use Rattle.rehearsal_run.specs.Sealed.{RunSeals, WhoeverComesVotes};

/// The run of the rehearsal's keys, from the state before the poll, opens the poll and seals it at the moments of the keys, and
/// exactly those voters have voted whom the keys let come.
pub fn the_rehearsal_seals()
    ensures sealed { RunSeals }
    ensures came { WhoeverComesVotes }
{}
