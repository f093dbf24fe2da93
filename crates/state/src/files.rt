//! The directory of a state, in the system's files.
//!
//! - `lock` is locked for as long as the [`Directory`] lives: a second process gets
//!   [`FolderFault::InUse`]. It stays locked while the other files are opened anew.
//! - `segments` and `segments-wal` are the two files of the log.
//! - `kept` says that the state is good, `stale` that it isn't. The mark is a rename from one name
//!   to the other, which takes no space; the directory is synced behind it. If both stand, the
//!   state is stale. `kept` is made before the first segment is begun.
//! - If a disk takes no mark, `stale` is made in a second place: the directory that the environment
//!   calls RUNTIME_DIRECTORY, as systemd gives it to a unit. A state is stale if either place says
//!   so. That place may be lost when the machine is started again.
//! - `origin` notes which files these two are. If it is a note of others, the directory is a copy,
//!   and the state is stale as if the mark stood. If there is none, as in a directory of an older
//!   version, the files count as the original.
//! - `unread-1` to `unread-9`, each with a `-wal`, are files that couldn't be read.
//!
//! [`stood_in`] reads what stands in such a directory, beside a process that has it or alone, and
//! changes nothing.
//!
//! Not proved is what the system does. What is proved is what this module makes of its answers. The
//! mark counts as made or taken away only if the calls for it and the sync behind them have
//! succeeded. No name is looked for or changed, and no file of the log is opened, before the lock
//! is taken.
ghost use Rattle.std.specs.Prelude.{◌≡◌, IfOk, IsTrue, None, false, true};
ghost use Rattle.sqlite_std_file.specs.File.{file_is_usable};

mod beside;
mod faults;
mod laws;
mod marks;
mod names;
mod origin;
mod reading;
mod starts;

use self::beside::Beside;
use self::faults::{at, opening_fault};
use self::marks::Marks;
use self::names::SystemNames;
use crate::folder::{Folder, FolderFault};
use gateway::History;
pub use laws::{
    a_directory_is_refused_for_its_reason, a_file_is_looked_at_whole,
    a_lock_is_told_where_it_is_taken, a_mark_is_made_where_there_is_none,
    a_mark_is_on_the_disk_where_it_is_told, files_are_put_aside_in_pairs,
};
pub use reading::{Stood, stood_in};
use segments::Segment;
use sqlite_disk::Files;
use sqlite_std_file::FileFrom;
pub use starts::Starts;
use std::env;

/// The directory of a state. It is made, and locked, when its files are first opened.
#[derive(Drop)]
pub struct Directory<S: Starts> {
    marks: Marks<SystemNames>,
    /// What stands in its files.
    starts: S,
    /// What led to the state at the head of its newest log.
    lineage: History,
}

/// A second place for the mark, if the environment names one.
fn second_place(rt: HostRuntime) -> Option<Beside<SystemNames>> {
    match env::var(&rt, "RUNTIME_DIRECTORY") {
        Ok(path) if !path.is_empty() => Some(Beside::new(SystemNames {
            rt,
            path,
            lock: None,
        })),
        Ok(_) | Err(_) => None,
    }
}

/// Makes the mark in the second place alone, for a run that goes on without its directory: a later
/// start with that resets each link. `false`: it couldn't be done, or there is no such place.
pub fn mark_beside(rt: HostRuntime) -> bool {
    match second_place(rt) {
        Some(mut beside) => beside.mark().is_ok(),
        None => false,
    }
}

impl<S: Starts> Directory<S> {
    /// The directory at a path, in whose files this stands, and to whose state this history has
    /// led. Nothing is asked of the system yet but for the second place of its mark.
    pub fn new(rt: HostRuntime, path: String, starts: S, lineage: History) -> Directory<S>
        ensures names { result.marks.names ≡ record { rt = rt; path = path; lock = None } }
        ensures unlocked { result.marks.is_locked ≡ false }
        ensures unknown { result.marks.mark ≡ None }
        ensures lineage { result.lineage ≡ lineage }
    {
        let names = SystemNames {
            rt,
            path,
            lock: None,
        };
        Directory {
            marks: Marks::new(names, second_place(rt)),
            starts,
            lineage,
        }
    }

    /// Opens both files of the directory, which is locked.
    fn open_files(&self) -> Result<Files<FileFrom<S::Found>>, FolderFault>
        requires { IsTrue self.now.marks.is_locked }
        ensures log { IfOk result (λ files. IsTrue (file_is_usable S.Found.Start files.log)) }
        ensures db { IfOk result (λ files. IsTrue (file_is_usable S.Found.Start files.db)) }
    {
        let names = &self.marks.names;
        let path = at("segments", names.path_of("segments"))?;
        match sqlite_std_file::open(&names.rt, path.as_str(), self.starts.found()) {
            Ok(files) => Ok(files),
            Err(error) => Err(opening_fault(names.unusable(), &error)),
        }
    }
}

impl<S: Starts> Folder for Directory<S> {
    type File = FileFrom<S::Found>;

    ghost mark = { λ d. d.marks.mark };

    ghost is_locked = { λ d. d.marks.is_locked };

    ghost lineage = { λ d. d.lineage.entries };

    ghost aside = { λ d _ _. d.marks.has_put_aside ≡ true };

    fn open(&mut self) -> Result<Files<FileFrom<S::Found>>, FolderFault> {
        if !at("lock", self.marks.lock())? {
            return Err(FolderFault::InUse);
        }
        at("kept", self.marks.make_kept())?;
        self.open_files()
    }

    fn is_stale(&mut self) -> Result<bool, FolderFault> {
        self.marks.is_stale()
    }

    fn mark_stale(&mut self) -> bool {
        self.marks.mark_stale()
    }

    fn unmark(&mut self, _log: &Segment<FileFrom<S::Found>>) -> bool {
        self.marks.unmark()
    }

    fn put_aside(&mut self, newest: FileFrom<S::Found>, other: FileFrom<S::Found>) -> bool {
        drop(newest);
        drop(other);
        let alloc = self.marks.names.rt.alloc();
        self.marks.set_aside(alloc)
    }
}
