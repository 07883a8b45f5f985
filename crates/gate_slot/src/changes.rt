//! The pages in which two bodies differ.
ghost use Rattle.std.specs.Prelude.{◌≡◌, ◌+◌, ◌*◌, ◌/◌, ◌%◌, ◌≤◌, ◌<◌, length};
ghost use Rattle.gate_slot.specs.Page.{AreChanges, is_changed, page_size};

use urna_outside::overwrite;

/// The bytes of a page, the least that a patch writes.
pub const PAGE_SIZE: usize = 512;

/// The pages that have a mark: as many as the longest body of both programs has. Those behind them are compared in each slot.
const MARKED_PAGES: usize = 512;

/// The pages in which two bodies differ, found once for all slots that go from the one to the other.
#[derive(Drop)]
pub struct Changes {
    marks: [bool; MARKED_PAGES],
}

/// Whether two bodies differ in a page.
fn is_changed(old: &[u8], new: &[u8], page: usize) -> bool
    requires old { page * page_size + page_size ≤ length old.now }
    requires new { page * page_size + page_size ≤ length new.now }
    ensures { result ≡ is_changed old.now new.now page }
{
    let from = page * PAGE_SIZE;
    old[from..from + PAGE_SIZE] != new[from..from + PAGE_SIZE]
}

impl Changes {
    /// Finds the pages in which two bodies of one length differ.
    pub fn of(old: &[u8], new: &[u8]) -> Changes
        requires { length old.now ≡ length new.now }
        ensures { AreChanges result old.now new.now }
    {
        let mut marks = [false; MARKED_PAGES];
        for page in 0..MARKED_PAGES.min(new.len() / PAGE_SIZE) {
            marks[page] = is_changed(old, new, page);
        }
        Changes { marks }
    }

    /// Whether the bodies differ in a page.
    pub(crate) fn has(&self, page: usize, old: &[u8], new: &[u8]) -> bool
        requires page { page < length new.now / page_size }
        requires same_length { length old.now ≡ length new.now }
        requires changes { AreChanges self.now old.now new.now }
        ensures { result ≡ is_changed old.now new.now page }
    {
        if page < MARKED_PAGES {
            self.marks[page]
        } else {
            is_changed(old, new, page)
        }
    }

    /// Brings the old body, of whole pages, to the new one by the pages that change, and those without a mark.
    pub fn bring(&self, body: &mut [u8], new: &[u8])
        requires same_length { length body.old ≡ length new.now }
        requires pages { length new.now % page_size ≡ 0 }
        requires changes { AreChanges self.now body.old new.now }
        ensures { body.new ≡ new.now }
    {
        for page in 0..new.len() / PAGE_SIZE {
            if page >= MARKED_PAGES || self.marks[page] {
                let from = page * PAGE_SIZE;
                overwrite(body, from, &new[from..from + PAGE_SIZE]);
            }
        }
    }
}
