//! The header of a ledger's flash.
ghost use Rattle.std.specs.Prelude.{◌≡◌};
ghost use Rattle.intake_ledger.specs.Header.{header};

use arrayvec::ArrayVec;
use election_tables::Tables;
use flash_store::device_byte;
use gate_slot::HEADER_SIZE;
use urna_outside::Dev;

/// The eight bytes with which each header begins.
pub(crate) const MAGIC: [u8; 8] = *b"URNALG\0\0";

/// How many zeros fill a header up.
const HEADER_ZEROS: usize = 471;

/// The header of a device of a ledger of these tables.
#[tactic(auto, unfolding(crate::specs::Header::header))]
pub(crate) fn header(tables: &Tables, dev: Dev) -> [u8; HEADER_SIZE]
    ensures { result ≡ header tables.now dev }
{
    let mut bytes = ArrayVec::<u8, HEADER_SIZE>::new();
    bytes.try_extend_from_slice(&MAGIC).unwrap();
    bytes.try_push(device_byte(dev)).unwrap();
    bytes.try_extend_from_slice(&tables.digest()).unwrap();
    bytes.try_extend_from_slice(&[0; HEADER_ZEROS]).unwrap();
    bytes.into_inner().unwrap()
}
