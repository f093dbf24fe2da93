//! What tells a copy of a directory from the original: a note of which two files the log has.
//!
//! The note says of each file when it was made, in ns. Whoever copies, restores or clones a file
//! makes a new one. If the file system doesn't keep that moment, the note has the number of the
//! file there. It has no number of a device: the next boot may give another one, as some file
//! systems give files other numbers then (docs/DECISIONS.md, "A copy of a state").
//!
//! The note is written when a new log stands whole, before the mark is taken away. So a power cut
//! or a kill leaves, at each moment:
//!
//! - before the first note is whole: none, or a part of one. That counts as none, and these files
//!   as the original;
//! - behind it: a note of files that are on the disk. Both, and their names, are synced as they are
//!   opened, before a log is begun in them;
//! - at a later start: the same note. It isn't written again while it is right;
//! - in a copy: the old note, by which it is stale, until the new log stands;
//! - if files were put aside: the mark, which stood before and is taken away behind the note;
//! - amid a new note: the old one, or the new one, or a part. They are equally long, and shorter
//!   than a sector. The log that stands then is the new one.

use super::names::named;
use super::reading::{opened, path_of, room};
use std::fs::OpenOptions;
use std::io::ErrorKind;
use std::os::unix::fs::{FileExt, MetadataExt};
use std::time::SystemTime;
use std::{fs, io};

/// What tells a file from each other one that has or had its name. 0: there is none.
fn number_of(rt: &HostRuntime, path: &str, name: &str) -> io::Result<u128> {
    let found = match fs::symlink_metadata(rt, path_of(rt.alloc(), path, name)?.as_str()) {
        Ok(found) => found,
        Err(error) if error.kind() == ErrorKind::NotFound => return Ok(0),
        Err(error) => return Err(error),
    };
    let Ok(made) = found.created() else {
        return Ok(u128::from(found.ino()));
    };
    match made.duration_since(SystemTime::UNIX_EPOCH) {
        Ok(since) => Ok(since.as_nanos()),
        Err(_) => Ok(0),
    }
}

/// The note of the files that stand there.
fn note_text(rt: &HostRuntime, path: &str) -> io::Result<String> {
    let db = number_of(rt, path, "segments")?;
    let log = number_of(rt, path, "segments-wal")?;
    named(format!(in rt.alloc(); "{db:020} {log:020}\n"))
}

/// Whether the note is that of the files that stand there. `None`: no whole note is there.
fn is_right(rt: &HostRuntime, path: &str) -> io::Result<Option<bool>> {
    let Some(file) = opened(rt, path, "origin")? else {
        return Ok(None);
    };
    let note = note_text(rt, path)?;
    let mut found = room(rt.alloc(), note.len())?;
    match file.read_exact_at(found.as_mut_slice(), 0) {
        Ok(()) if found.as_slice().last() == Some(&b'\n') => {
            Ok(Some(found.as_slice() == note.as_bytes()))
        }
        Ok(()) => Ok(None),
        Err(error) if error.kind() == ErrorKind::UnexpectedEof => Ok(None),
        Err(error) => Err(error),
    }
}

/// Whether the note is that of other files than stand there.
pub(crate) fn is_copy(rt: &HostRuntime, path: &str) -> io::Result<bool> {
    Ok(is_right(rt, path)? == Some(false))
}

/// Writes the note of the files that stand there, on the disk, unless it stands there. Its name is
/// synced by the caller.
pub(crate) fn note(rt: &HostRuntime, path: &str) -> io::Result<()> {
    if is_right(rt, path)? == Some(true) {
        return Ok(());
    }
    let file = OpenOptions::new()
        .write(true)
        .create(true)
        .open(rt, path_of(rt.alloc(), path, "origin")?.as_str())?;
    file.write_all_at(note_text(rt, path)?.as_bytes(), 0)?;
    file.sync_all()
}
