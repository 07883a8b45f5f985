ghost use Rattle.std.specs.Prelude.{◌≡◌, ◌==◌, IfOk, replicate, vec_capacity};
ghost use Rattle.std.specs.List.{list_all};

use crate::Memory;
use std::alloc::Global;

/// So many zeros, with memory for just them. `Memory` comes only where an allocation failed.
pub fn zeros(alloc: Global, count: usize) -> Result<Vec<u8>, Memory>
    ensures bytes { IfOk result (λ bytes. bytes.items ≡ replicate count 0) }
    ensures room { IfOk result (λ bytes. vec_capacity bytes ≡ count) }
{
    // one by one, since only these pushes tell that they take no memory more
    let mut bytes = Vec::with_capacity(alloc, count)?;
    for _ in 0..count {
        bytes.push_reserved(0);
    }
    Ok(bytes)
}

/// Whether all bytes are zero. It takes no branch at a byte, so that many are looked at in one step.
pub fn is_zero(bytes: &[u8]) -> bool
    ensures { result ≡ list_all (λ b. b == 0) bytes.now }
{
    let mut seen = 0;
    for byte in bytes {
        seen |= *byte;
    }
    seen == 0
}
