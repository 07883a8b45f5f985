//! The words of a line: numbers, devices and bytes.
use crate::halt::Halt;
use std::alloc::Global;
use urna_base::decimal;
use urna_outside::Dev;

/// The word before the first blank, and the rest.
pub fn head(text: &str) -> (&str, &str) {
    match text.split_once(" ") {
        Some(parts) => parts,
        None => (text, ""),
    }
}

/// The number that a word is.
pub fn number(word: &str) -> Result<u32, Halt> {
    match decimal(word.as_bytes()) {
        Some(number) => u32::try_from(number).map_err(|_| Halt::Script),
        None => Err(Halt::Script),
    }
}

/// Numbers with a blank between them.
pub fn numbers(alloc: Global, text: &str) -> Result<Vec<u32>, Halt> {
    let mut numbers = Vec::new(alloc);
    if !text.is_empty() {
        for word in text.split(' ') {
            numbers.push(number(word)?)?;
        }
    }
    Ok(numbers)
}

/// The device that a word names.
pub fn device(word: &str) -> Result<Dev, Halt> {
    match word {
        "internal" => Ok(Dev::Internal),
        "external" => Ok(Dev::External),
        _ => Err(Halt::Script),
    }
}

/// The bytes of hexadecimal digits.
pub fn hex_bytes(alloc: Global, digits: &str) -> Result<Vec<u8>, Halt> {
    match hex::decode(alloc, digits.as_bytes()) {
        Ok(bytes) => Ok(bytes),
        Err(_) => Err(Halt::Script),
    }
}
