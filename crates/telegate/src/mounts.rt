//! The file system that a directory stands on.

use std::fs;

/// Whether a directory that is there stands on btrfs. `false` also if the system doesn't tell.
pub(crate) fn is_on_btrfs(rt: &HostRuntime, directory: &str) -> bool {
    let Ok(path) = fs::canonicalize(rt, directory) else {
        return false;
    };
    match fs::read_to_string(rt, "/proc/self/mounts") {
        Ok(mounts) => is_btrfs_at(mounts.as_str(), path.as_str()),
        Err(_) => false,
    }
}

/// Whether the file system at a path is btrfs, by a table of mounts. Of the mount points above the
/// path the deepest counts, and of several mounts there the latest.
fn is_btrfs_at(mounts: &str, path: &str) -> bool {
    let (mut deepest, mut is_btrfs) = (0, false);
    for mount in mounts.lines() {
        // What is mounted, where, as which file system, and how.
        let mut words = mount.split(' ').skip(1);
        let (Some(point), Some(kind)) = (words.next(), words.next()) else {
            continue;
        };
        if point.len() >= deepest && stands_in(path, point) {
            deepest = point.len();
            is_btrfs = kind == "btrfs";
        }
    }
    is_btrfs
}

/// Whether a path is that of a directory, or leads to something in it.
fn stands_in(path: &str, directory: &str) -> bool {
    match path.strip_prefix(directory) {
        Some(rest) => rest.is_empty() || rest.starts_with('/') || directory.ends_with('/'),
        None => false,
    }
}
