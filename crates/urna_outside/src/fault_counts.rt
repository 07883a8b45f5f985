//! Counts of faults. At its last value a count stands.
ghost use Rattle.std.specs.Prelude.{◌≡◌, IsErr, OnErr, is_ok};
ghost use Rattle.urna_outside.specs.Told.{Counts, faults_after};

use crate::{Failed, Port};

/// How often each port has failed.
#[derive(Clone, Copy, Debug, PartialEq, Eq)]
pub struct FaultCounts {
    internal: u64,
    external: u64,
    display: u64,
}

impl FaultCounts {
    ghost use Rattle.urna_outside.specs.FaultCounts.{faults_in, no_faults};

    /// No port has failed.
    pub fn new() -> FaultCounts
        ensures { faults_in result ≡ no_faults }
    {
        FaultCounts {
            internal: 0,
            external: 0,
            display: 0,
        }
    }

    /// Counts a failure of a port, and answers it.
    pub fn fail(&mut self, port: Port) -> Result<(), Failed>
        ensures failed { IsErr result }
        ensures after { faults_in self.new ≡ faults_after port (faults_in self.old) }
        ensures counts { Counts port result (faults_in self.old) (faults_in self.new) }
    {
        match port {
            Port::Internal => self.internal = self.internal.saturating_add(1),
            Port::External => self.external = self.external.saturating_add(1),
            Port::Display => self.display = self.display.saturating_add(1),
        }
        Err(Failed)
    }

    /// Counts a failure where that came of a call, and answers whether it did.
    pub fn count<E: Drop>(&mut self, port: Port, outcome: Result<(), E>) -> Result<(), Failed>
        ensures result { is_ok result ≡ is_ok outcome }
        ensures after { OnErr result (faults_in self.new ≡ faults_after port (faults_in self.old)) }
        ensures counts { Counts port result (faults_in self.old) (faults_in self.new) }
    {
        match outcome {
            Ok(()) => Ok(()),
            Err(_) => self.fail(port),
        }
    }
}
