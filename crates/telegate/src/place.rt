//! The place of a run's state.
ghost use Rattle.std.specs.Prelude.{◌≡◌};

use segments::Segment;
use sqlite_disk::Files;
use state::{Folder, FolderFault};
use std::io::ErrorKind;

/// The directory that a run's state is kept in, or none, if that can't be used.
#[derive(Drop)]
pub(crate) enum Place<F: Folder + Drop> {
    /// This one.
    In(F),
    /// None: nothing is opened, so that no log is ever begun. What stands in the directory is
    /// marked as stale.
    Nowhere,
}

impl<F: Folder + Drop> Folder for Place<F> {
    ghost use Rattle.std.specs.Prelude.{Some, true, []};
    ghost use Rattle.telegate.specs.Placed.{IfIn, at_place};

    type File = F::File;

    ghost mark = { λ p. at_place F.mark (Some true) p };

    ghost is_locked = { λ p. at_place F.is_locked true p };

    ghost lineage = { λ p. at_place F.lineage [] p };

    ghost aside = { λ p newest other. IfIn (λ folder. F.aside folder newest other) p };

    ghost answered = { λ p files. IfIn (λ folder. F.answered folder files) p };

    ghost refused = { λ p. IfIn F.refused p };

    fn open(&mut self) -> Result<Files<F::File>, FolderFault> {
        match self {
            Place::In(folder) => folder.open(),
            Place::Nowhere => Err(FolderFault::Unusable(".", ErrorKind::Other)),
        }
    }

    fn is_stale(&mut self) -> Result<bool, FolderFault> {
        match self {
            Place::In(folder) => folder.is_stale(),
            Place::Nowhere => Ok(true),
        }
    }

    fn mark_stale(&mut self) -> bool {
        match self {
            Place::In(folder) => folder.mark_stale(),
            Place::Nowhere => true,
        }
    }

    fn unmark(&mut self, log: &Segment<F::File>) -> bool {
        match self {
            Place::In(folder) => folder.unmark(log),
            Place::Nowhere => false,
        }
    }

    fn put_aside(&mut self, newest: F::File, other: F::File) -> bool {
        match self {
            Place::In(folder) => folder.put_aside(newest, other),
            Place::Nowhere => false,
        }
    }
}
