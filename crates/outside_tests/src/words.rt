//! The words that a program was started with.
use command_parts::words;
use std::env::{Env, FillError};
use std::test::Fail;

/// A system whose program was given these arguments, its name first.
#[derive(Drop)]
struct Given(&'static [&'static [u8]]);

impl Env for Given {
    fn arg(&self, i: usize, buf: &mut [u8]) -> Result<usize, FillError> {
        let Some(word) = self.0.get(i) else {
            return Err(FillError::NotPresent);
        };
        if word.len() > buf.len() {
            return Err(FillError::TooLong);
        }
        buf[..word.len()].copy_from_slice(word);
        Ok(word.len())
    }

    fn var(&self, _name: &str, _buf: &mut [u8]) -> Result<usize, FillError> {
        Err(FillError::NotPresent)
    }

    fn var_at(&self, _i: usize, _buf: &mut [u8]) -> Result<usize, FillError> {
        Err(FillError::NotPresent)
    }
}

#[test]
fn words_are_those_after_the_name_where_each_is_text(rt: HostRuntime) -> Result<(), Fail> {
    let rows: [(&'static [&'static [u8]], &'static [&'static str]); 5] = [
        (&[b"urna", b"carga", b"t"], &["carga", "t"]),
        (&[b"\xff", b"carga", b"t"], &["carga", "t"]),
        (&[b"urna", b"carga", b"\xff"], &[]),
        (&[b"urna"], &[]),
        (&[], &[]),
    ];
    for (given, told) in rows {
        let found = words(rt.alloc(), &Given(given))?;
        assert!(rt; found.len() == told.len(), "of {} words", given.len());
        for (word, text) in found.iter().zip(told) {
            assert!(rt; word.as_str() == *text, "of {} words", given.len());
        }
    }
    Ok(())
}
