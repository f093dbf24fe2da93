//! A look at the directory of a state that changes nothing in it.
ghost use Rattle.std.specs.Prelude.{◌≡◌, ◌++◌, ◌∷◌, [], IfOk, IsTrue, length, string_bytes};
ghost use Rattle.std.specs.Io.KnownBytes.{ReadConsumes};
ghost use Rattle.std.specs.Io.{ReadsAtMost};
ghost use Rattle.sqlite_disk.specs.Memory.{memory_bytes, memory_is_usable};
ghost use Rattle.state.specs.Copying.{IsCopied};

use super::origin::is_copy;
use gateway::History;
use sqlite_disk::{Disk, Files, Memory};
use std::alloc::Global;
use std::io::{ErrorKind, Read};
use std::{fs, io};

/// How many octets are read at once.
const PIECE: usize = 65_536;

/// What stands in the directory of a state, in memory.
#[derive(Drop)]
pub struct Stood {
    /// The two files; one that isn't there is empty.
    pub files: Files<Memory>,
    /// The state is marked as stale, or the files are a copy.
    pub is_stale: bool,
    /// A process has the directory open.
    pub is_held: bool,
    /// What led to the state at the head of the newest log, which no code holds.
    pub before: History,
    ghost log: { IsTrue (memory_is_usable files.log) },
    ghost db: { IsTrue (memory_is_usable files.db) },
}

/// Reads what stands in the directory at a path. Nothing is written, made, renamed or kept locked:
/// whether another process has the lock is tried for a moment, with a lock that both may have.
///
/// # Errors
///
/// There is no such directory, a file of it can't be read, or memory was refused.
// What stands there, whether it is marked and whether another process has it, no clause can say:
// that is what the system answers (checks/state.py compares it with what a run left).
pub fn stood_in(rt: &HostRuntime, path: &str) -> io::Result<Stood>
    ensures before { IfOk result (λ stood. stood.before.entries ≡ []) }
{
    if !fs::metadata(rt, path)?.is_dir() {
        return Err(ErrorKind::NotADirectory.into());
    }
    let is_held = is_held(rt, path)?;
    // Whole, into memory: a file that is read so can't change under the judgement, though a run may
    // write meanwhile (docs/DECISIONS.md, "A look at a state").
    let log = held_in_memory(rt, path, "segments-wal")?;
    let db = held_in_memory(rt, path, "segments")?;
    Ok(Stood {
        files: Files { log, db },
        is_stale: has(rt, path, "stale")? || is_copy(rt, path)?,
        is_held,
        before: History::new(),
    })
}

/// The path of a file in a directory.
pub(crate) fn path_of(alloc: Global, path: &str, name: &str) -> io::Result<String>
    ensures { IfOk result (λ text. string_bytes text ≡ path.now ++ 47 ∷ name.now) }
{
    match format!(in alloc; "{path}/{name}") {
        Ok(path) => Ok(path),
        Err(_) => Err(ErrorKind::OutOfMemory.into()),
    }
}

/// Whether a file stands in a directory.
fn has(rt: &HostRuntime, path: &str, name: &str) -> io::Result<bool> {
    match fs::symlink_metadata(rt, path_of(rt.alloc(), path, name)?.as_str()) {
        Ok(_) => Ok(true),
        Err(fault) if fault.kind() == ErrorKind::NotFound => Ok(false),
        Err(fault) => Err(fault),
    }
}

/// A file in a directory, if it is there, opened for reading alone.
pub(crate) fn opened(rt: &HostRuntime, path: &str, name: &str) -> io::Result<Option<fs::File>> {
    let path = path_of(rt.alloc(), path, name)?;
    // To open a FIFO waits for who writes into it.
    match fs::metadata(rt, path.as_str()) {
        Ok(found) if !found.is_file() => return Err(ErrorKind::Unsupported.into()),
        Ok(_) => {}
        Err(fault) if fault.kind() == ErrorKind::NotFound => return Ok(None),
        Err(fault) => return Err(fault),
    }
    match fs::File::open(rt, path.as_str()) {
        Ok(file) => Ok(Some(file)),
        Err(fault) if fault.kind() == ErrorKind::NotFound => Ok(None),
        Err(fault) => Err(fault),
    }
}

/// Whether another process has the directory open.
fn is_held(rt: &HostRuntime, path: &str) -> io::Result<bool> {
    let Some(file) = opened(rt, path, "lock")? else {
        return Ok(false);
    };
    match file.try_lock_shared() {
        Ok(()) => {
            file.unlock()?;
            Ok(false)
        }
        Err(fs::TryLockError::WouldBlock) => Ok(true),
        Err(fs::TryLockError::Error(fault)) => Err(fault),
    }
}

/// The octets of a file in a directory; none if it isn't there.
fn held_in_memory(rt: &HostRuntime, path: &str, name: &str) -> io::Result<Memory>
    ensures { IfOk result (λ m. IsTrue (memory_is_usable m)) }
{
    let mut memory = Memory::new(rt.alloc());
    if let Some(mut file) = opened(rt, path, name)? {
        copy(rt.alloc(), &mut file, &mut memory)?;
    }
    Ok(memory)
}

/// So many octets.
pub(crate) fn room(alloc: Global, octets: usize) -> io::Result<Vec<u8>>
    ensures { IfOk result (λ room. length room.items ≡ octets) }
{
    match vec![in alloc; 0; octets] {
        Ok(room) => Ok(room),
        Err(_) => Err(ErrorKind::OutOfMemory.into()),
    }
}

/// What comes next; nothing at the end. A call that a signal interrupts is made again.
fn next_piece<R: Read>(from: &mut R, room: &mut [u8]) -> io::Result<usize>
    ensures bound { ReadsAtMost result room.new }
    ensures bytes { ReadConsumes (R.remaining from.old) (R.remaining from.new) result room.new }
{
    'reading: for _ in 0..u64::MAX {
        match from.read(room) {
            Err(fault) if fault.kind() == ErrorKind::Interrupted => {}
            read => return read,
        }
    }
    // No reader is stopped so often.
    Err(ErrorKind::Interrupted.into())
}

/// Copies what comes, up to its end.
fn copy<R: Read>(alloc: Global, from: &mut R, to: &mut Memory) -> io::Result<()>
    requires { IsTrue (memory_is_usable to.old) }
    ensures usable { IsTrue (memory_is_usable to.new) }
    ensures whole { IfOk result (λ _. IsCopied (R.remaining from.old) to.old to.new) }
{
    let mut room = room(alloc, PIECE)?;
    'copying: for _ in 0..u64::MAX {
        let octets = next_piece(from, room.as_mut_slice())?;
        if octets == 0 {
            return Ok(());
        }
        append(to, &room.as_slice()[..octets])?;
    }
    // No file has so many octets.
    Err(ErrorKind::FileTooLarge.into())
}

/// Appends octets.
fn append(to: &mut Memory, piece: &[u8]) -> io::Result<()>
    requires { IsTrue (memory_is_usable to.old) }
    ensures usable { IsTrue (memory_is_usable to.new) }
    ensures whole { IfOk result (λ _. memory_bytes to.new ≡ memory_bytes to.old ++ piece.now) }
{
    let at = to.bytes().len();
    to.write_at(at, piece)
}
