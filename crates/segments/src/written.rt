//! What was written to a segment, for who can't keep it.
ghost use Rattle.std.specs.Prelude.{◌≡◌};
ghost use Rattle.std.specs.Borrow.{ftrue};
ghost use Rattle.segments.specs.Contents.{Contents};

use sqlite_disk::Disk;
use std::marker::Model;

/// What was written to a segment, which only proofs read. It takes no memory, and its functions do
/// nothing at run time.
#[derive(Drop)]
pub(crate) struct Written {
    pub(crate) ghost has: { Contents },
}

impl Model for Written {
    ghost also_owns = { λ _. ftrue };
}

impl Written {
    /// What proofs know.
    fn known() -> Written
        ghost contents: { Contents }
        ensures { result.has ≡ contents }
    {
        Written {}
    }

    /// What proofs know of a file up to a place.
    pub(crate) fn of<D: Disk>(_file: &D, _end: usize) -> Written
        ghost contents: { Contents }
        ensures { result.has ≡ contents }
    {
        Written::known()
    }

    /// What they know once these octets stand behind it.
    pub(crate) fn next(&self, _octets: &[u8]) -> Written
        ghost contents: { Contents }
        ensures { result.has ≡ contents }
    {
        Written::known()
    }
}
