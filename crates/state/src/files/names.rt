//! The names of files in a directory.
ghost use Rattle.std.specs.Prelude.{◌≡◌, ◌++◌, ◌∷◌, IfOk, None, Ok, string_bytes};

use super::origin;
use std::alloc::AllocError;
use std::fs::OpenOptions;
use std::io::ErrorKind;
use std::os::unix::fs::MetadataExt;
use std::{fs, io};

/// What became of a call, if memory may be refused.
pub(crate) fn named(name: Result<String, AllocError>) -> io::Result<String>
    ensures { IfOk result (λ text. name ≡ Ok text) }
{
    match name {
        Ok(name) => Ok(name),
        Err(AllocError) => Err(ErrorKind::OutOfMemory.into()),
    }
}

/// Whether a file is locked now. `false`: another process has it.
fn is_taken(file: &fs::File) -> io::Result<bool> {
    match file.try_lock() {
        Ok(()) => Ok(true),
        Err(fs::TryLockError::WouldBlock) => Ok(false),
        Err(fs::TryLockError::Error(error)) => Err(error),
    }
}

/// The names of files in a directory.
pub(crate) trait Names: Drop {
    ghost use Rattle.std.specs.Prelude.{◌≡◌};
    ghost use Rattle.state.specs.FileNames.{Compared, Locked, Made, Recorded, Renamed, Sought};
    ghost use Rattle.state.specs.FileNames.{Steps, Synced, answer_of, is_done, noted};

    /// The calls that were made, if they are kept.
    ghost steps: { Self → Steps };

    /// Renames a file. `false`: it isn't there.
    fn rename(&mut self, from: &str, to: &str) -> io::Result<bool>
        ensures { steps self.new
            ≡ noted (steps self.old) (Renamed from.now to.now (answer_of result)) };

    /// Whether a file stands there.
    fn has(&mut self, name: &str) -> io::Result<bool>
        ensures { steps self.new ≡ noted (steps self.old) (Sought name.now (answer_of result)) };

    /// Makes a file that is empty, unless it is there.
    fn make(&mut self, name: &str) -> io::Result<()>
        ensures { steps self.new ≡ noted (steps self.old) (Made name.now (is_done result)) };

    /// Syncs the names.
    fn sync(&mut self) -> io::Result<()>
        ensures { steps self.new ≡ noted (steps self.old) (Synced (is_done result)) };

    /// Locks the directory, which is made if it isn't there. `false`: another process has it.
    fn try_lock(&mut self) -> io::Result<bool>
        ensures { steps self.new ≡ noted (steps self.old) (Locked (answer_of result)) };

    /// Whether other files of the log were noted there than stand there.
    fn is_copy(&mut self) -> io::Result<bool>
        ensures { steps self.new ≡ noted (steps self.old) (Compared (answer_of result)) };

    /// Notes which files of the log stand there.
    fn note_origin(&mut self) -> io::Result<()>
        ensures { steps self.new ≡ noted (steps self.old) (Recorded (is_done result)) };
}

/// A directory of the system.
#[derive(Drop)]
pub(crate) struct SystemNames {
    pub(crate) rt: HostRuntime,
    pub(crate) path: String,
    /// The file that is locked.
    pub(crate) lock: Option<fs::File>,
}

impl SystemNames {
    /// The path of a file in it.
    pub(crate) fn path_of(&self, name: &str) -> io::Result<String>
        ensures { IfOk result (λ path. string_bytes path
            ≡ string_bytes self.now.path ++ 47 ∷ name.now) }
    {
        named(format!(in self.rt.alloc(); "{}/{name}", self.path))
    }

    /// Whether a regular file with this one name stands there, which can be read and written.
    fn can_open(&self, name: &str) -> io::Result<bool> {
        let path = self.path_of(name)?;
        let found = fs::symlink_metadata(&self.rt, path.as_str())?;
        if !found.is_file() || found.nlink() != 1 {
            return Ok(false);
        }
        let opened = OpenOptions::new()
            .read(true)
            .write(true)
            .open(&self.rt, path.as_str());
        Ok(opened.is_ok())
    }

    /// Which of the two files of the log can't be used, as far as that can be told: the second one
    /// only if the first one can be opened.
    pub(crate) fn unusable(&self) -> &'static str {
        let can_open_first = self.can_open("segments").unwrap_or(false);
        if can_open_first && !self.can_open("segments-wal").unwrap_or(false) {
            "segments-wal"
        } else {
            "segments"
        }
    }

    /// Makes a file that is empty, or opens it.
    pub(crate) fn opened(&self, name: &str) -> io::Result<fs::File> {
        OpenOptions::new()
            .read(true)
            .write(true)
            .create(true)
            .open(&self.rt, self.path_of(name)?.as_str())
    }
}

impl Names for SystemNames {
    // What the system does no clause says (checks/state.py has starts over such directories).
    ghost steps = { λ _. None };

    fn rename(&mut self, from: &str, to: &str) -> io::Result<bool> {
        let (from, to) = (self.path_of(from)?, self.path_of(to)?);
        match fs::rename(&self.rt, from.as_str(), to.as_str()) {
            Ok(()) => Ok(true),
            Err(error) if error.kind() == ErrorKind::NotFound => Ok(false),
            Err(error) => Err(error),
        }
    }

    fn has(&mut self, name: &str) -> io::Result<bool> {
        match fs::symlink_metadata(&self.rt, self.path_of(name)?.as_str()) {
            Ok(_) => Ok(true),
            Err(error) if error.kind() == ErrorKind::NotFound => Ok(false),
            Err(error) => Err(error),
        }
    }

    fn make(&mut self, name: &str) -> io::Result<()> {
        let _file = self.opened(name)?;
        Ok(())
    }

    fn sync(&mut self) -> io::Result<()> {
        fs::File::open(&self.rt, self.path.as_str())?.sync_all()
    }

    fn try_lock(&mut self) -> io::Result<bool> {
        let file = match self.lock.take() {
            Some(file) => file,
            None => {
                match fs::create_dir_all(&self.rt, self.path.as_str()) {
                    Ok(()) => {}
                    // What stands there the lock tells: no directory, or a disk that fails.
                    Err(fault) if fault.kind() == ErrorKind::AlreadyExists => {}
                    Err(fault) => return Err(fault),
                }
                self.opened("lock")?
            }
        };
        let answer = is_taken(&file);
        self.lock = Some(file);
        answer
    }

    fn is_copy(&mut self) -> io::Result<bool> {
        origin::is_copy(&self.rt, self.path.as_str())
    }

    fn note_origin(&mut self) -> io::Result<()> {
        origin::note(&self.rt, self.path.as_str())
    }
}
