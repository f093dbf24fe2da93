//! What the names of files in a directory say of the state there.
ghost use Rattle.std.specs.Prelude.{◌≡◌, ◌⊎◌, ◌<◌, ◌≤◌, ◌++◌, codes, false, true, IfOk, None, Some};
ghost use Rattle.std.specs.Prelude.{IsTrue};
ghost use Rattle.state.specs.FileNames.{AreRenamed, Compared, HasMark, IsFree, IsLockTaken};
ghost use Rattle.state.specs.FileNames.{IsMadeGood, IsMarkedAs, IsPutAside, IsRenamed, Recorded};
ghost use Rattle.state.specs.FileNames.{Sought, Synced, noted, unread_name};
ghost use Rattle.state.specs.Marks.{HasNoneThere, IsFoundStale, IsMarkedThere, SaysBeside};

use super::beside::Beside;
use super::faults::at;
use super::names::{Names, named};
use crate::folder::FolderFault;
use std::alloc::Global;
use std::io;
use std::io::ErrorKind;

/// How many files that couldn't be read are kept.
const MOST_UNREAD: u32 = 9;

/// How often the lock is tried: some milliseconds. Who looks at the directory
/// ([`crate::stood_in`]) has it for a few microseconds.
const TRIES: u32 = 10_000;

/// The names in the directory of a state.
#[derive(Drop)]
pub(crate) struct Marks<N: Names> {
    pub(crate) names: N,
    // Private, so that nothing is told as done but by the calls below: what they say holds of each
    // directory, and of the system's no clause can say more.
    /// This process has the directory locked. Without that no name is looked for or changed.
    is_locked: bool,
    /// Whether the mark stands on the disk, if that is known.
    mark: Option<bool>,
    /// Files that couldn't be read were put aside.
    has_put_aside: bool,
    /// A second place for the mark, if there is one.
    beside: Option<Beside<N>>,
}

impl<N: Names> Marks<N> {
    /// Those of a directory of which nothing is known yet.
    pub(crate) fn new(names: N, beside: Option<Beside<N>>) -> Marks<N>
        ensures { result ≡ record {
          names = names;
          is_locked = false;
          mark = None;
          has_put_aside = false;
          beside = beside;
        } }
    {
        Marks {
            names,
            is_locked: false,
            mark: None,
            has_put_aside: false,
            beside,
        }
    }

    /// Locks the directory, and keeps it locked. `false`: another process has it.
    pub(crate) fn lock(&mut self) -> io::Result<bool>
        ensures locked { IfOk result (λ is_locked. is_locked ≡ self.new.is_locked) }
        ensures taken { IfOk result (λ is_locked. is_locked ≡ true →
            IsLockTaken self.old.is_locked (N.steps self.new.names)) }
        ensures stays { IsTrue self.old.is_locked → IsTrue self.new.is_locked }
        ensures mark { self.new.mark ≡ self.old.mark }
    {
        if self.is_locked {
            return Ok(true);
        }
        'locking: for _ in 0..TRIES {
            if self.names.try_lock()? {
                self.is_locked = true;
                return Ok(true);
            }
        }
        Ok(false)
    }

    /// Renames a file, and makes sure that the name is on the disk. If it isn't there, a file of
    /// the new name is.
    fn mark_as(&mut self, from: &str, to: &str) -> io::Result<()>
        requires { IsTrue self.old.is_locked }
        ensures marked { IfOk result (λ _. IsMarkedAs from.now to.now (N.steps self.old.names)
            (N.steps self.new.names)) }
        ensures mark { self.new.mark ≡ self.old.mark }
        ensures lock { self.new.is_locked ≡ self.old.is_locked }
        ensures beside { self.new.beside ≡ self.old.beside }
    {
        self.names.rename(from, to)?;
        if !self.names.has(to)? {
            return Err(ErrorKind::NotFound.into());
        }
        self.names.sync()
    }

    /// Makes the file that says that the state is good, if none says anything.
    pub(crate) fn make_kept(&mut self) -> io::Result<()>
        requires { IsTrue self.old.is_locked }
        ensures made { IfOk result (λ _. HasMark (N.steps self.old.names)
            (N.steps self.new.names)) }
        ensures mark { self.new.mark ≡ self.old.mark }
        ensures lock { self.new.is_locked ≡ self.old.is_locked }
    {
        if self.names.has("kept")? {
            return Ok(());
        }
        if self.names.has("stale")? {
            return Ok(());
        }
        self.names.make("kept")?;
        self.names.sync()
    }

    /// Whether the mark stands in the second place, if there is one. If that can't be told it
    /// counts as marked.
    fn is_marked_beside(&mut self) -> bool
        ensures found { SaysBeside N.steps self.old.beside self.new.beside result }
        ensures names { self.new.names ≡ self.old.names }
        ensures mark { self.new.mark ≡ self.old.mark }
        ensures lock { self.new.is_locked ≡ self.old.is_locked }
    {
        match &mut self.beside {
            Some(beside) => beside.is_marked().unwrap_or(true),
            None => false,
        }
    }

    /// Whether the state is stale: the mark stands, on the disk or in the second place, or the
    /// files are a copy. Both files are open.
    pub(crate) fn is_stale(&mut self) -> Result<bool, FolderFault>
        requires { IsTrue self.old.is_locked }
        ensures found { IfOk result (IsFoundStale N.steps (N.steps self.old.names)
            (N.steps self.new.names) self.old.beside self.new.beside) }
        ensures mark { IfOk result (λ is_stale. self.new.mark ≡ Some is_stale) }
        ensures lock { self.new.is_locked ≡ self.old.is_locked }
    {
        at(".", self.names.sync())?;
        let is_here = at("stale", self.names.has("stale"))?;
        let is_copy = at("origin", self.names.is_copy())?;
        let is_there = self.is_marked_beside();
        let is_stale = is_here || is_copy || is_there;
        self.mark = Some(is_stale);
        Ok(is_stale)
    }

    /// Makes the mark in the second place. `false`: it couldn't be done, or there is none.
    fn mark_beside(&mut self) -> bool
        ensures marked { result ≡ true → IsMarkedThere N.steps self.old.beside self.new.beside }
        ensures names { self.new.names ≡ self.old.names }
        ensures mark { self.new.mark ≡ self.old.mark }
        ensures lock { self.new.is_locked ≡ self.old.is_locked }
    {
        match &mut self.beside {
            Some(beside) => beside.mark().is_ok(),
            None => false,
        }
    }

    /// Takes the mark away in the second place. `false`: it couldn't be done.
    fn unmark_beside(&mut self) -> bool
        ensures marked { result ≡ true → HasNoneThere N.steps self.old.beside self.new.beside }
        ensures names { self.new.names ≡ self.old.names }
        ensures mark { self.new.mark ≡ self.old.mark }
        ensures lock { self.new.is_locked ≡ self.old.is_locked }
    {
        match &mut self.beside {
            Some(beside) => beside.unmark().is_ok(),
            None => true,
        }
    }

    /// Marks the state as stale: on the disk, or else in the second place. `false`: it couldn't be
    /// done.
    pub(crate) fn mark_stale(&mut self) -> bool
        requires { IsTrue self.old.is_locked }
        ensures marked { result ≡ true → IsMarkedAs (codes "kept") (codes "stale")
            (N.steps self.old.names) (N.steps self.new.names)
            ⊎ IsMarkedThere N.steps self.old.beside self.new.beside }
        ensures mark { result ≡ true → self.new.mark ≡ Some true }
        ensures unknown { result ≡ false → self.new.mark ≡ None }
        ensures lock { self.new.is_locked ≡ self.old.is_locked }
    {
        self.mark = None;
        let is_made = self.mark_as("kept", "stale").is_ok() || self.mark_beside();
        if is_made {
            self.mark = Some(true);
        }
        is_made
    }

    /// Takes the mark away, on the disk and in the second place, when a new log stands. Before that
    /// it notes which files have it. `false`: it couldn't be done.
    pub(crate) fn unmark(&mut self) -> bool
        requires { IsTrue self.old.is_locked }
        ensures marked { result ≡ true →
            IsMadeGood (N.steps self.old.names) (N.steps self.new.names) }
        ensures beside { result ≡ true → HasNoneThere N.steps self.old.beside self.new.beside }
        ensures mark { result ≡ true → self.new.mark ≡ Some false }
        ensures unknown { result ≡ false → self.new.mark ≡ None }
        ensures lock { self.new.is_locked ≡ self.old.is_locked }
    {
        self.mark = None;
        let is_taken = self.names.note_origin().is_ok()
            && self.mark_as("stale", "kept").is_ok()
            && self.unmark_beside();
        if is_taken {
            self.mark = Some(false);
        }
        is_taken
    }

    /// Whether no file that couldn't be read is kept under this number.
    fn is_free(&mut self, alloc: Global, number: u32) -> io::Result<bool>
        requires { IsTrue self.old.is_locked }
        ensures free { IfOk result (λ is_free. is_free ≡ true →
            IsFree number (N.steps self.new.names)) }
        ensures mark { self.new.mark ≡ self.old.mark }
        ensures lock { self.new.is_locked ≡ self.old.is_locked }
    {
        let name = named(format!(in alloc; "unread-{number}"))?;
        if self.names.has(name.as_str())? {
            return Ok(false);
        }
        // If the first file was missing, the second one alone may have been put aside.
        let name = named(format!(in alloc; "unread-{number}-wal"))?;
        Ok(!self.names.has(name.as_str())?)
    }

    /// The first number under which no file that couldn't be read is kept, or the last one.
    fn unread_number(&mut self, alloc: Global) -> io::Result<u32>
        requires { IsTrue self.old.is_locked }
        ensures range { IfOk result (λ n. (1 ≤ n) × (n ≤ 9)) }
        ensures free { IfOk result (λ n. n < 9 → IsFree n (N.steps self.new.names)) }
        ensures mark { self.new.mark ≡ self.old.mark }
        ensures lock { self.new.is_locked ≡ self.old.is_locked }
    {
        for number in 1..MOST_UNREAD {
            if self.is_free(alloc, number)? {
                return Ok(number);
            }
        }
        Ok(MOST_UNREAD)
    }

    /// Gives a file the name with this number, and another word behind it.
    fn rename_to(&mut self, alloc: Global, from: &str, number: u32, ending: &str) -> io::Result<()>
        requires { IsTrue self.old.is_locked }
        ensures renamed { IfOk result (λ _. IsRenamed from.now
            (unread_name number ++ ending.now) (N.steps self.old.names)
            (N.steps self.new.names)) }
        ensures mark { self.new.mark ≡ self.old.mark }
        ensures lock { self.new.is_locked ≡ self.old.is_locked }
    {
        let name = named(format!(in alloc; "unread-{number}{ending}"))?;
        self.names.rename(from, name.as_str())?;
        Ok(())
    }

    /// Gives both files the names with this number, and syncs the names.
    fn rename_both(&mut self, alloc: Global, number: u32) -> io::Result<()>
        requires { IsTrue self.old.is_locked }
        ensures renamed { IfOk result (λ _. AreRenamed number (N.steps self.old.names)
            (N.steps self.new.names)) }
        ensures mark { self.new.mark ≡ self.old.mark }
        ensures lock { self.new.is_locked ≡ self.old.is_locked }
    {
        self.rename_to(alloc, "segments", number, "")?;
        self.rename_to(alloc, "segments-wal", number, "-wal")?;
        self.names.sync()
    }

    /// Renames both files, so that a run begins anew. `false`: it couldn't be done.
    pub(crate) fn set_aside(&mut self, alloc: Global) -> bool
        requires { IsTrue self.old.is_locked }
        ensures aside { result ≡ true → IsPutAside (N.steps self.new.names) }
        ensures told { result ≡ true → self.new.has_put_aside ≡ true }
        ensures mark { self.new.mark ≡ self.old.mark }
        ensures lock { self.new.is_locked ≡ self.old.is_locked }
    {
        let is_done = self.rename_files(alloc).is_ok();
        if is_done {
            self.has_put_aside = true;
        }
        is_done
    }

    /// Gives both files the names with the first number that is free.
    fn rename_files(&mut self, alloc: Global) -> io::Result<()>
        requires { IsTrue self.old.is_locked }
        ensures aside { IfOk result (λ _. IsPutAside (N.steps self.new.names)) }
        ensures mark { self.new.mark ≡ self.old.mark }
        ensures lock { self.new.is_locked ≡ self.old.is_locked }
    {
        let number = self.unread_number(alloc)?;
        self.rename_both(alloc, number)
    }
}
