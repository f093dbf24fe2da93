//! The directory of a state, as a store needs it.

use segments::Segment;
use sqlite_disk::{Disk, Files};
use std::io::ErrorKind;
use thiserror::Error;

/// Why the state of a directory isn't opened.
#[derive(Clone, Copy, Debug, PartialEq, Eq, Error)]
pub enum FolderFault {
    /// Another process has it open. Nothing was touched.
    #[error("another process has it open")]
    InUse,
    /// The file of this name in it can't be used, for this cause: the disk failed, the system
    /// refused, or what stands there isn't a state's.
    #[error("{0}: {1}")]
    Unusable(&'static str, ErrorKind),
    /// Memory was refused.
    #[error("no memory")]
    NoMemory,
}

/// The directory of a state: two files, and a mark that says that they are stale. A start that
/// finds the mark trusts none of the links in them.
pub trait Folder {
    ghost use Rattle.gateway.specs.Log.{LogEntry};
    ghost use Rattle.gateway.specs.Config.{Settings};
    ghost use Rattle.state.specs.Unread.{IsUnread};
    ghost use Rattle.std.specs.Prelude.{◌≡◌, ℕ, List, [], Option, Some, Bool, true, false, IfOk};
    ghost use Rattle.std.specs.Prelude.{MatchResult, None, OnOk};
    ghost use Rattle.std.specs.Prelude.{IsTrue};

    type File: Disk + Drop;

    /// Whether the mark stands on the disk, if that is known.
    ghost mark: { Self → Option Bool };

    /// This process has the directory locked. Nothing in it is read or changed before.
    ghost is_locked: { Self → Bool };

    /// What led to the state at the head of the newest segment. Only proofs know it.
    ghost lineage: { Self → List LogEntry } = { λ _. [] };

    /// These two files were put aside.
    ghost aside: { Self → Self.File → Self.File → Type 0 };

    /// Its files were asked for, and these two were opened, or none.
    ghost answered: { Self → Option (Self.File × Self.File) → Type 0 } = { λ _ _. Unit {0} };

    /// The mark was asked for, and couldn't be made.
    ghost refused: { Self → Type 0 } = { λ _. Unit {0} };

    /// Opens both files, locked. Neither may be open: they are dropped before.
    fn open(&mut self) -> Result<Files<Self::File>, FolderFault>
        ensures log { IfOk result (λ files. IsTrue (Self.File.is_usable files.log)) }
        ensures db { IfOk result (λ files. IsTrue (Self.File.is_usable files.db)) }
        ensures answered { MatchResult result
            (λ files. answered self.new (Some (files.log, files.db)))
            (λ _. answered self.new None) }
        ensures locked { OnOk result (is_locked self.new ≡ true) }
        ensures stays { is_locked self.old ≡ true → is_locked self.new ≡ true }
        ensures lineage { lineage self.new ≡ lineage self.old }
        ensures mark { mark self.new ≡ mark self.old };

    /// Whether the state there is marked as stale.
    fn is_stale(&mut self) -> Result<bool, FolderFault>
        requires { is_locked self.old ≡ true }
        ensures mark { IfOk result (λ is_stale. mark self.new ≡ Some is_stale) }
        ensures lineage { lineage self.new ≡ lineage self.old }
        ensures stays { is_locked self.new ≡ true };

    /// Marks the state as stale, on the disk. It takes no space on it. `false`: it couldn't be
    /// done.
    fn mark_stale(&mut self) -> bool
        requires { is_locked self.old ≡ true }
        ensures mark { result ≡ true → mark self.new ≡ Some true }
        ensures refused { result ≡ false → refused self.new }
        ensures lineage { lineage self.new ≡ lineage self.old }
        ensures stays { is_locked self.new ≡ true };

    /// Takes the mark away, on the disk, when a log stands whole that isn't stale. `false`: it
    /// couldn't be done.
    fn unmark(&mut self, _log: &Segment<Self::File>) -> bool
        requires { is_locked self.old ≡ true }
        ensures mark { result ≡ true → mark self.new ≡ Some false }
        ensures stays { is_locked self.new ≡ true };

    /// Puts both files aside under other names, so that a run begins anew; they are closed before.
    /// A state that can be gone on with isn't put aside. The mark stands before that. If one file
    /// is put aside and the other isn't yet, a start must not trust that one. `false`: it couldn't
    /// be done.
    fn put_aside(&mut self, newest: Self::File, other: Self::File) -> bool
        requires locked { is_locked self.old ≡ true }
        requires marked { mark self.old ≡ Some true }
        requires unread { IsTrue (Self.File.is_clean newest) →
            IsTrue (Self.File.is_clean other) →
            IsUnread (Self.File.seen newest) (Self.File.seen other) }
        ensures aside { result ≡ true → aside self.new newest other }
        ensures stays { is_locked self.new ≡ true }
        ensures mark { mark self.new ≡ mark self.old };
}
