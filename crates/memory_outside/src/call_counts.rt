//! Counts of calls. At its last value a count stands.
ghost use Rattle.std.specs.Prelude.{◌≡◌};
ghost use Rattle.urna_outside.specs.Told.{calls_after};

/// The calls that were made and that failed.
#[derive(Clone, Copy, Debug, PartialEq, Eq)]
pub(crate) struct CallCounts {
    made: u64,
    failed: u64,
    last_failed: Option<u64>,
}

impl CallCounts {
    ghost use Rattle.memory_outside.specs.CallCounts.{calls_in};
    ghost use Rattle.urna_outside.specs.Started.{no_calls};

    pub(crate) fn new() -> CallCounts
        ensures { calls_in result ≡ no_calls }
    {
        CallCounts {
            made: 0,
            failed: 0,
            last_failed: None,
        }
    }

    /// The number of the next call.
    pub(crate) fn next(&self) -> u64
        ensures { result ≡ (calls_in self.now).made }
    {
        self.made
    }

    /// Counts a call that ended well or failed.
    pub(crate) fn count(&mut self, ok: bool)
        ensures { calls_in self.new ≡ calls_after ok (calls_in self.old) }
    {
        if !ok {
            self.failed = self.failed.saturating_add(1);
            self.last_failed = Some(self.made);
        }
        self.made = self.made.saturating_add(1);
    }
}
