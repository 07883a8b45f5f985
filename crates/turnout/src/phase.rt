/// How far a poll is (docs/RULES.md, "The state of a poll"). Moments are numbers YYYYMMDDHHMMSS.
#[derive(Clone, Copy, Debug, PartialEq, Eq)]
pub enum Phase {
    Ready,
    Polling { opened: u64 },
    Sealed { opened: u64, closed: u64 },
}
