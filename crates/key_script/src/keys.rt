/// A key of the voter's keypad.
#[derive(Clone, Copy, Debug, PartialEq, Eq)]
pub enum Key {
    /// One of the ten digits; it is valid where it is 0 to 9.
    Digit(u8),
    /// BRANCO.
    Blank,
    /// CORRIGE.
    Correct,
    /// CONFIRMA.
    Confirm,
}

/// A key of the clerk's terminal.
#[derive(Clone, Copy, Debug, PartialEq, Eq)]
pub enum ClerkKey {
    /// Opens the poll at a moment YYYYMMDDHHMMSS.
    Abre(u64),
    /// Identifies the voter with this title, which is below 10 to the 12.
    Titulo(u64),
    /// Releases the ballot to the voter who is identified.
    Libera,
    /// Takes the identification back.
    Cancela,
    /// Ends a visit that the voter doesn't finish.
    Suspende,
    /// Closes the poll at a moment YYYYMMDDHHMMSS.
    Encerra(u64),
}

/// One press of a key.
#[derive(Clone, Copy, Debug, PartialEq, Eq)]
pub enum Event {
    Clerk(ClerkKey),
    Voter(Key),
}
