ghost use Rattle.std.specs.Prelude.{◌≡◌};
ghost use Rattle.std.specs.Int.{w32, w64, from_be_bytes, to_be_bytes};

/// The number that four bytes write, the highest first.
pub fn be32(bytes: [u8; 4]) -> u32
    ensures { result ≡ from_be_bytes w32 bytes }
{
    u32::from_be_bytes(bytes)
}

/// The four bytes of a number, the highest first.
pub fn put_be32(value: u32) -> [u8; 4]
    ensures { result ≡ to_be_bytes w32 value }
{
    value.to_be_bytes()
}

/// The number that eight bytes write, the highest first.
pub fn be64(bytes: [u8; 8]) -> u64
    ensures { result ≡ from_be_bytes w64 bytes }
{
    u64::from_be_bytes(bytes)
}

/// The eight bytes of a number, the highest first.
pub fn put_be64(value: u64) -> [u8; 8]
    ensures { result ≡ to_be_bytes w64 value }
{
    value.to_be_bytes()
}
