//! The three counts of a cabinet. At its last value a count stands.
ghost use Rattle.std.specs.Prelude.{◌≡◌};
ghost use Rattle.urna_outside.specs.Cabinet.{CountsFault, CountsMissing, CountsTooLong};

use crate::CabinetError;

/// How often a cabinet has failed, had no file of the name, or a longer one.
#[derive(Clone, Copy, Debug, PartialEq, Eq)]
pub struct TakeCounts {
    faults: u64,
    missing: u64,
    too_long: u64,
}

impl TakeCounts {
    ghost use Rattle.urna_outside.specs.TakeCounts.{no_tally, tally_after, tally_of};

    /// Nothing was counted.
    pub fn new() -> TakeCounts
        ensures { tally_of result ≡ no_tally }
    {
        TakeCounts {
            faults: 0,
            missing: 0,
            too_long: 0,
        }
    }

    /// Counts why a file was not taken or put. Want of memory isn't counted.
    pub fn count(&mut self, error: CabinetError)
        ensures after { tally_of self.new ≡ tally_after error (tally_of self.old) }
        ensures memory { error ≡ CabinetError.Memory → tally_of self.new ≡ tally_of self.old }
        ensures failed { error ≡ CabinetError.Failed →
            CountsFault (tally_of self.old) (tally_of self.new) }
        ensures missing { error ≡ CabinetError.Missing →
            CountsMissing (tally_of self.old) (tally_of self.new) }
        ensures too_long { error ≡ CabinetError.TooLong →
            CountsTooLong (tally_of self.old) (tally_of self.new) }
    {
        match error {
            CabinetError::Memory => {}
            CabinetError::Failed => self.faults = self.faults.saturating_add(1),
            CabinetError::Missing => self.missing = self.missing.saturating_add(1),
            CabinetError::TooLong => self.too_long = self.too_long.saturating_add(1),
        }
    }
}
