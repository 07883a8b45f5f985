//! A body that a device holds, as bytes.
ghost use Rattle.std.specs.Prelude.{◌≡◌, ◌≤◌, length, vec_len, IfOk};

use std::alloc::Global;
use urna_base::Memory;

/// A body of version 1: zeros but for its front and the bytes from the number of panels on.
pub fn body_of(alloc: Global, front: &[u8], bags: &[u8]) -> Result<Vec<u8>, Memory>
    requires front { length front.now ≤ 97 }
    requires bags { length bags.now ≤ 1000 }
    ensures { IfOk result (λ body. vec_len body ≡ 65536) }
{
    let mut body = vec![in alloc; 0; 65_536]?;
    body[..front.len()].copy_from_slice(front);
    body[97..97 + bags.len()].copy_from_slice(bags);
    Ok(body)
}
