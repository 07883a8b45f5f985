//! Texts that come one after another, of which equal ones are printed as one.
use crate::calls::say;
use case_parts::Halt;
use std::alloc::Global;

/// Lines of which those that say the same are printed as one, with the numbers of the first and the last of them.
#[derive(Drop)]
pub(crate) struct Runs {
    first: u32,
    next: u32,
    text: String,
}

impl Runs {
    pub(crate) fn new(alloc: Global) -> Runs {
        Runs {
            first: 0,
            next: 0,
            text: String::new(alloc),
        }
    }

    /// Prints the lines that were added last.
    pub(crate) fn say(&self, alloc: Global, out: &mut String) -> Result<(), Halt> {
        if self.first == self.next {
            return Ok(());
        }
        let (first, last) = (self.first, self.next.saturating_sub(1));
        say(out, &format!(in alloc; "{first} to {last}: {}", self.text)?)
    }

    pub(crate) fn add(&mut self, alloc: Global, text: &str, out: &mut String) -> Result<(), Halt> {
        if self.text.as_str() != text {
            self.say(alloc, out)?;
            self.first = self.next;
            self.text = String::from_str(alloc, text)?;
        }
        self.next = self.next.saturating_add(1);
        Ok(())
    }
}

/// What is told one way after another, of which only what isn't told of the way before is kept.
#[derive(Drop)]
pub(crate) struct Ways {
    text: String,
    before: String,
}

impl Ways {
    pub(crate) fn new(alloc: Global) -> Ways {
        Ways {
            text: String::new(alloc),
            before: String::new(alloc),
        }
    }

    /// Begins anew.
    pub(crate) fn clear(&mut self) {
        self.text.clear();
        self.before.clear();
    }

    pub(crate) fn text(&self) -> &str {
        self.text.as_str()
    }

    pub(crate) fn add(&mut self, way: &str, told: &str) -> Result<(), Halt> {
        if self.before.as_str() == told {
            return Ok(());
        }
        if !self.text.is_empty() {
            self.text.push_str(" | from ")?;
            self.text.push_str(way)?;
            self.text.push_str(" on ")?;
        }
        self.text.push_str(told)?;
        self.before.clear();
        self.before.push_str(told)?;
        Ok(())
    }
}
