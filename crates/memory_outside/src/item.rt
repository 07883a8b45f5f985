//! A file in memory, with its name.
ghost use Rattle.std.specs.Prelude.{◌≡◌, ◌≤◌, length};
ghost use Rattle.memory_outside.specs.Item.{end_in_row, entry_of, is_named};

/// A file that was placed, in memory of its own, or one that was put: its name, and behind it its bytes, stand from `start`
/// on in a row that all of these share.
#[derive(Drop)]
pub(crate) enum Item {
    Placed {
        name: String,
        bytes: Vec<u8>,
    },
    Put {
        start: usize,
        name_len: usize,
        len: usize,
    },
}

impl Item {
    fn name<'a>(&'a self, row: &'a [u8]) -> &'a [u8]
        requires { end_in_row self.now ≤ length row.now }
        ensures { result.now ≡ (entry_of row.now self.now).name }
    {
        match self {
            Item::Placed { name, .. } => name.as_bytes(),
            Item::Put {
                start,
                name_len,
                ..
            } => &row[*start..*start + *name_len],
        }
    }

    pub(crate) fn bytes<'a>(&'a self, row: &'a [u8]) -> &'a [u8]
        requires { end_in_row self.now ≤ length row.now }
        ensures { result.now ≡ (entry_of row.now self.now).bytes }
    {
        match self {
            Item::Placed { bytes, .. } => bytes,
            Item::Put {
                start,
                name_len,
                len,
            } => {
                let from = *start + *name_len;
                &row[from..from + *len]
            }
        }
    }

    pub(crate) fn is_named(&self, row: &[u8], name: &str) -> bool
        requires { end_in_row self.now ≤ length row.now }
        ensures { result ≡ is_named row.now name.now self.now }
    {
        self.name(row) == name.as_bytes()
    }
}
