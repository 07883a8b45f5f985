//! What flashes are loaded with, and the header that tells it.
ghost use Rattle.std.specs.Prelude.{◌≡◌};
ghost use Rattle.state_store.specs.Load.{header, load_of};

use arrayvec::ArrayVec;
use election_tables::{Roll, Section, Tables};
use flash_store::device_byte;
use gate_slot::HEADER_SIZE;
use urna_base::put_be32;
use urna_outside::Dev;

/// The eight bytes with which each header begins.
pub(crate) const MAGIC: [u8; 8] = *b"URNAU1\0\0";

/// How many zeros fill a header up.
const HEADER_ZEROS: usize = 427;

/// What two flashes are loaded with: the SHA-256 of the tables' bytes and of the roll's bytes, and the section.
#[derive(Clone, Copy, Debug, PartialEq, Eq)]
pub(crate) struct Load {
    pub tables: [u8; 32],
    pub roll: [u8; 32],
    pub section: Section,
}

impl Load {
    /// A load of these tables and this roll for a section.
    pub(crate) fn of(tables: &Tables, roll: &Roll, section: Section) -> Load
        ensures { result ≡ load_of tables.now roll.now section }
    {
        Load {
            tables: tables.digest(),
            roll: roll.digest(),
            section,
        }
    }

    /// The header of a device with this load (docs/FORMATS.md, "Flash layout").
    #[tactic(auto, unfolding(crate::specs::Load::header))]
    pub(crate) fn header(&self, dev: Dev) -> [u8; HEADER_SIZE]
        ensures { result ≡ header self.now dev }
    {
        let mut bytes = ArrayVec::<u8, HEADER_SIZE>::new();
        bytes.try_extend_from_slice(&MAGIC).unwrap();
        bytes.try_push(device_byte(dev)).unwrap();
        bytes
            .try_extend_from_slice(&put_be32(self.section.zone))
            .unwrap();
        bytes
            .try_extend_from_slice(&put_be32(self.section.number))
            .unwrap();
        bytes
            .try_extend_from_slice(&put_be32(self.section.voters))
            .unwrap();
        bytes.try_extend_from_slice(&self.tables).unwrap();
        bytes.try_extend_from_slice(&self.roll).unwrap();
        bytes.try_extend_from_slice(&[0; HEADER_ZEROS]).unwrap();
        bytes.into_inner().unwrap()
    }
}

/// The header of a device that is loaded with these tables and this roll for a section.
pub fn header(tables: &Tables, roll: &Roll, section: Section, dev: Dev) -> [u8; HEADER_SIZE]
    ensures { result ≡ header (load_of tables.now roll.now section) dev }
{
    Load::of(tables, roll, section).header(dev)
}
