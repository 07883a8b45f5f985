//! Why a file is no parts of a field text.
ghost use Rattle.std.specs.Prelude.{◌≡◌};
ghost use Rattle.hash_chain.specs.declared.fault.PartError.TheVariants.{Fault, Memory};

use thiserror::Error;
use urna_base::Memory;

/// The fault of a file of parts (docs/FORMATS.md, "Parts"): the first line that fails, counted from 1, and in it the first of these
/// tests that does.
#[derive(Clone, Copy, Debug, PartialEq, Eq)]
pub enum PartFault {
    /// The line has no line feed, or isn't of the form.
    Form(u32),
    /// It is of another version.
    Version(u32),
    /// It isn't the part that is due, or isn't of as many as the file has lines.
    Number(u32),
    /// Its hash isn't that of the hash before and its text.
    Hash(u32),
    /// Its fields have more than 1,000 bytes, or the first of them would have fitted into the part before.
    Cut(u32),
}

/// Why a file gives no field text.
#[derive(Clone, Copy, Debug, PartialEq, Eq, Error)]
pub enum PartError {
    /// Memory ran out.
    #[error("out of memory")]
    Memory,
    /// The file is no parts of a field text.
    #[error("the file is no parts of a field text")]
    Fault(PartFault),
}

/// A fault ends the reading.
impl From<PartFault> for PartError {
    ghost from_gives = { λ fault e. e ≡ Fault fault };

    fn from(fault: PartFault) -> PartError {
        PartError::Fault(fault)
    }
}

/// So does want of memory.
impl From<Memory> for PartError {
    ghost from_gives = { λ _ e. e ≡ Memory };

    fn from(_memory: Memory) -> PartError {
        PartError::Memory
    }
}
