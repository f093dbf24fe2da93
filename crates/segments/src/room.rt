//! Room that is taken before it is needed.
ghost use Rattle.std.specs.Prelude.{◌≡◌, []};

use std::alloc::{AllocError, Global};

/// An empty row with room for so many octets, so that none of them asks for memory. If there is no
/// memory now, they ask again.
pub fn row_with_room(alloc: Global, octets: usize) -> Vec<u8>
    ensures { result.items ≡ [] }
{
    match Vec::with_capacity(alloc, octets) {
        Ok(row) => row,
        Err(AllocError) => Vec::new(alloc),
    }
}
