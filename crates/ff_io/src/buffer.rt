//! Buffers that bytes are got into.
ghost use Rattle.std.specs.Prelude.{◌≡◌, IfOk, vec_len};

use crate::NoMemory;
use std::alloc::Global;

/// A vector of `size` zeros.
pub fn buffer_of(alloc: Global, size: usize) -> Result<Vec<u8>, NoMemory>
    ensures { IfOk result (λ buffer. vec_len buffer ≡ size) }
{
    vec![in alloc; 0u8; size]
}
