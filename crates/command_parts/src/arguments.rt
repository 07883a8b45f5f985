//! The words of a command, from the arguments of the program.
use std::alloc::Global;
use std::env::{Env, FillError};
use std::{env, io};

/// The arguments without the program's name.
#[derive(Drop)]
struct AfterName<'a, E>(&'a E);

impl<'a, E: Env> Env for AfterName<'a, E> {
    fn arg(&self, i: usize, buf: &mut [u8]) -> Result<usize, FillError> {
        match i.checked_add(1) {
            Some(next) => self.0.arg(next, buf),
            None => Err(FillError::NotPresent),
        }
    }

    fn var(&self, name: &str, buf: &mut [u8]) -> Result<usize, FillError> {
        self.0.var(name, buf)
    }

    fn var_at(&self, i: usize, buf: &mut [u8]) -> Result<usize, FillError> {
        self.0.var_at(i, buf)
    }
}

/// The words after the program's name, which may be any bytes. A word that isn't UTF-8 is in no command; there are none
/// then.
pub fn words<E: Env>(alloc: Global, system: &E) -> io::Result<Vec<String>> {
    let mut words = Vec::new(alloc);
    match env::args(&(AfterName(system), alloc)) {
        Ok(args) => {
            for word in args {
                words.push(word)?;
            }
            Ok(words)
        }
        Err(error) if error.kind() == io::ErrorKind::InvalidData => Ok(words),
        Err(error) => Err(error),
    }
}
