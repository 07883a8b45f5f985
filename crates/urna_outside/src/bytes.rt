//! Bytes are put in the place of others.
ghost use Rattle.std.specs.Prelude.{◌≡◌, ◌+◌, ◌≤◌, length};
ghost use Rattle.urna_outside.specs.Flash.{overwrite};

/// Some bytes in the place of those that stood from there on. The caller owes that they lie within.
pub fn overwrite(into: &mut [u8], at: usize, bytes: &[u8])
    requires { at + length bytes.now ≤ length into.old }
    ensures { into.new ≡ overwrite into.old at bytes.now }
{
    into[at..at + bytes.len()].copy_from_slice(bytes);
}
