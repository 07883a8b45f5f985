//! Flashes that a script keeps.
use crate::flashes::Flashes;
use crate::halt::Halt;

/// Flashes that a script keeps under a name.
#[derive(Drop)]
pub struct Kept {
    pub name: String,
    pub flashes: Flashes,
}

/// The flashes that are kept under a name, the last of them.
pub fn kept_as<'a>(kept: &'a [Kept], name: &str) -> Result<&'a Flashes, Halt> {
    for one in kept.iter().rev() {
        if one.name.as_str() == name {
            return Ok(&one.flashes);
        }
    }
    Err(Halt::Script)
}
