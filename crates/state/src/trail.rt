//! The history of what is done, for who can't keep it.
ghost use Rattle.std.specs.Prelude.{◌≡◌, List, [], ◌++◌};
ghost use Rattle.std.specs.Borrow.{ftrue};
ghost use Rattle.state.specs.Deeds.{Deed};

use crate::loss::{Loss, StoreFault};
use gateway::{Action, Gateway, Next};
use std::marker::Model;

/// What is done when events are kept on a disk.
#[derive(Clone, Copy)]
pub enum Done<'a> {
    /// A port gave this answer, whose octets are the front of the buffer.
    Received(Next, &'a [u8; 1024]),
    /// The line of that event was appended.
    Appended(Next, &'a [u8; 1024]),
    /// All that was appended is on the disk.
    Synced,
    /// A new log stands on the disk, with the state of this gateway at its head.
    Begun(&'a Gateway),
    /// The store has failed; why, and whether the state on the disk was marked as stale.
    GivenUp(StoreFault, Loss),
    /// An action was handed out at a moment, in ms.
    PutOut(u64, &'a Action<'a>),
}

/// The history of what is done, the newest first, which only proofs read. It takes no memory, and
/// its methods do nothing at run time.
#[derive(Drop)]
pub struct Trail {
    pub ghost deeds: { List Deed },
}

impl Model for Trail {
    ghost also_owns = { λ _. ftrue };
}

impl Trail {
    ghost use Rattle.state.specs.Deeds.{deeds_of};

    /// A history in which nothing is done.
    pub fn new() -> Trail
        ensures { result.deeds ≡ [] }
    {
        Trail {}
    }

    /// The history with this deed.
    pub fn with(&self, _deed: &Done<'_>) -> Trail
        ensures { result.deeds ≡ deeds_of _deed.now ++ self.now.deeds }
    {
        Trail {}
    }
}
